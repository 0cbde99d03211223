//! The language of scripts: from the bytes of a script to its commands, or to its first refusal.
//!
//! It builds on `rk_types`. A script is lines of words: a command with its arguments, a comment, or nothing. What it
//! promises: [`parse`] answers exactly the commands that the definition of the language names, each with the number of
//! its line, or exactly the line and the code of its first refusal; only want of memory is free. What a command names is
//! in its range, and the key and the value of a call are within their limits. A [`ScriptReader`] that is fed a script in
//! pieces answers the same, however it is cut. Words are read in place, and nothing is copied but keys and values, and a
//! line that comes in several pieces.
#![tactic(auto)]

pub use code::Code;
pub use command::{Command, Numbered};
pub use numbers::number;
pub use reader::ScriptReader;
pub use script::{LONGEST_SCRIPT, ParseError, parse};

mod arguments;
mod calls;
mod code;
mod command;
mod line;
mod names;
mod numbers;
mod progress;
mod reader;
mod refusal;
mod script;
