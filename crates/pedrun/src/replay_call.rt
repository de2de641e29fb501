// Makes the call that replays a strand.

use std::alloc::{AllocError, Global};

// Whether `replay` has this option of another command, too.
fn is_kept(option: &str) -> bool {
    matches!(
        option,
        "--seed" | "--gamma" | "--depth" | "--budget" | "--rounds"
    )
}

// Adds an option with its value.
fn add_option(
    alloc: Global,
    call: &mut Vec<String>,
    option: &str,
    value: &str,
) -> Result<(), AllocError> {
    call.push(String::from_str(alloc, option)?)?;
    call.push(String::from_str(alloc, value)?)?;
    Ok(())
}

/// The words that replay the strand of this pedigree in the run that `words` ask for, or in the run of a batch under
/// this seed.
pub fn replay_words(
    alloc: Global,
    words: &[String],
    seed: Option<&str>,
    at: &str,
) -> Result<Vec<String>, AllocError> {
    let mut call = Vec::new(alloc);
    call.push(String::from_str(alloc, "replay")?)?;
    if let Some(seed) = seed {
        add_option(alloc, &mut call, "--seed", seed)?;
    }
    let mut words = words.iter();
    // The first word is the command.
    let _ = words.next();
    while let Some(option) = words.next() {
        if let Some(value) = words.next() {
            if is_kept(option) {
                add_option(alloc, &mut call, option, value)?;
            }
        }
    }
    add_option(alloc, &mut call, "--at", at)?;
    Ok(call)
}

/// The line `try: pedrun WORDS`.
pub fn call_line(alloc: Global, call: &[String]) -> Result<Vec<u8>, AllocError> {
    let mut line = b"try: pedrun".to_vec(alloc)?;
    for word in call {
        line.extend_from_slice(b" ")?;
        line.extend_from_slice(word.as_bytes())?;
    }
    line.extend_from_slice(b"\n")?;
    Ok(line)
}
