ghost use Rattle.std.specs.Prelude.{◌≡◌};
ghost use Rattle.vx_value.specs.Paths.{begins_name, name_move, move_of, ends_path};

/// Where the reader of a path stands.
#[derive(Clone, Copy)]
pub enum PathMode {
    /// Before everything.
    Start,
    /// Before a name.
    Name,
    /// In a bare name.
    Bare,
    /// Between the quotes of a name.
    Quoted,
    /// Behind a backslash in a name.
    Escaped,
    /// Behind the closing quote of a name.
    Closed,
}

/// What a byte of a path does.
#[derive(Clone, Copy)]
pub enum PathMove {
    /// No path goes on so.
    Refused,
    /// The byte is of the name.
    Adds(PathMode),
    /// The byte isn't of a name.
    Passes(PathMode),
    /// The byte ends the name, and another follows.
    Ends,
}

// Whether a byte may begin a bare name.
fn begins_bare(byte: u8) -> bool
    ensures { result ≡ begins_name byte }
{
    matches!(byte, b'a'..=b'z' | b'A'..=b'Z' | b'_' | b'@')
}

// What a byte before a name does.
fn begin(byte: u8) -> PathMove
    ensures { result ≡ name_move byte }
{
    if byte == b'"' {
        PathMove::Passes(PathMode::Quoted)
    } else if begins_bare(byte) {
        PathMove::Adds(PathMode::Bare)
    } else {
        PathMove::Refused
    }
}

impl PathMode {
    /// What a byte does. `none` tells that the name has no byte yet.
    pub fn takes(self, none: bool, byte: u8) -> PathMove
        ensures { result ≡ move_of self none byte }
    {
        match self {
            PathMode::Start => {
                if byte == b'.' {
                    PathMove::Passes(PathMode::Name)
                } else {
                    begin(byte)
                }
            }
            PathMode::Name => begin(byte),
            PathMode::Bare => {
                if begins_bare(byte) || byte.is_ascii_digit() {
                    PathMove::Adds(PathMode::Bare)
                } else if byte == b'.' {
                    PathMove::Ends
                } else {
                    PathMove::Refused
                }
            }
            PathMode::Quoted => {
                if byte == b'\\' {
                    PathMove::Passes(PathMode::Escaped)
                } else if byte != b'"' {
                    PathMove::Adds(PathMode::Quoted)
                } else if none {
                    PathMove::Refused
                } else {
                    PathMove::Passes(PathMode::Closed)
                }
            }
            PathMode::Escaped => {
                if byte == b'"' || byte == b'\\' {
                    PathMove::Adds(PathMode::Quoted)
                } else {
                    PathMove::Refused
                }
            }
            PathMode::Closed => {
                if byte == b'.' {
                    PathMove::Ends
                } else {
                    PathMove::Refused
                }
            }
        }
    }

    /// Whether a path may end here.
    pub fn may_end(self) -> bool
        ensures { result ≡ ends_path self }
    {
        matches!(self, PathMode::Bare | PathMode::Closed)
    }
}
