/// What is done with the input.
#[derive(Clone, Copy)]
pub enum Task {
    /// It is cut into lines, whose number is printed.
    Lines,
    /// Its lines are read as events, and the number of those that are some is printed.
    Read,
    /// Its lines are read as events, which are written.
    Copy,
    /// All of it is read as one event, whose fields are counted.
    Text,
    /// None of it: a plan of many layers is judged.
    Layers,
}

impl Task {
    /// The task of a name.
    pub fn named(word: &str) -> Option<Task> {
        match word {
            "lines" => Some(Task::Lines),
            "read" => Some(Task::Read),
            "copy" => Some(Task::Copy),
            "text" => Some(Task::Text),
            "layers" => Some(Task::Layers),
            _ => None,
        }
    }
}
