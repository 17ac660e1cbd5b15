use vx_value::Text;

/// What the words of the program ask for.
#[derive(Drop)]
pub enum Command {
    /// To run the pipeline of the configuration in that file: to the end of the files that are there where `once` holds, and to print
    /// what each component counted where `stats` holds.
    Run {
        config: Text,
        once: bool,
        stats: bool,
    },
    /// To judge the configuration in that file.
    Validate {
        path: Text,
    },
}
