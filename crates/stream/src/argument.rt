// Whether a program was given an argument.
use std::env::FillError;
use std::rt::Env;

// Number 0 is the program's own name. A promise it cannot have: no contract of std says which arguments there are.
pub fn has_argument(rt: &impl Env, argument: usize) -> bool {
    let mut name = [0u8; 16];
    !matches!(rt.arg(argument, &mut name), Err(FillError::NotPresent))
}
