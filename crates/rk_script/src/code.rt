ghost use Rattle.std.specs.Prelude.{◌≡◌};
ghost use Rattle.rk_script.specs.Codes.{code_number};

/// Why a script is refused before any line of it runs.
#[derive(Clone, Copy, Debug, PartialEq, Eq)]
pub enum Code {
    /// The first word is no command, or the operation of a `call` or the reach of an `advance` is unknown.
    UnknownName,
    /// The line has too few words or too many.
    WordCount,
    /// A number is spelled wrong, or is out of its range.
    BadNumber,
    /// A key is too long.
    KeyLength,
    /// A value is too long.
    ValueLength,
    /// A byte neither is a printed character nor parts words nor ends the line.
    BadByte,
    /// The script is too long.
    ScriptLength,
}

impl Code {
    /// The number that is written for the code.
    pub fn number(self) -> u8
        ensures { result ≡ code_number self }
    {
        match self {
            Code::UnknownName => 1,
            Code::WordCount => 2,
            Code::BadNumber => 3,
            Code::KeyLength => 4,
            Code::ValueLength => 5,
            Code::BadByte => 6,
            Code::ScriptLength => 20,
        }
    }
}
