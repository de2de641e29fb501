// The lines that follow a line on faulty words.

ghost use Rattle.std.specs.Prelude.{◌≡◌, ◌++◌, IfOk, OnOk, Some, None};
ghost use Rattle.pedrun.specs.Hints.{shown_word, try_line, word_line};

use crate::help::Topic;
use dotmix::MODULUS;
use ped_words::{MOST_SEEDS, is_number};
use script_excerpt::add_shown;
use std::alloc::{AllocError, Global};

// What the further lines on an option begin with in a help text.
const CONTINUED: &str = "                   ";

// At most this many bytes of a word are shown.
const MOST_SHOWN: usize = 72;

// Adds the part of a word that is shown.
fn add_word(line: &mut Vec<u8>, word: &str) -> Result<(), AllocError>
    ensures { OnOk result (line.new.items ≡ line.old.items ++ shown_word word.now) }
{
    let bytes = word.as_bytes();
    add_shown(line, &bytes[..bytes.len().min(MOST_SHOWN)])
}

// The line that shows a word with its index.
fn word_line(alloc: Global, at: usize, word: &str) -> Result<Vec<u8>, AllocError>
    ensures { IfOk result (λ line. line.items ≡ word_line at word.now) }
{
    let mut line = format!(in alloc; "word {at} is ")?.into_bytes();
    add_word(&mut line, word)?;
    line.extend_from_slice(b"\n")?;
    Ok(line)
}

// Whether an option's list may have this number at this index. The number has the right form.
fn takes_number(option: &str, index: usize, number: &str) -> bool {
    match number.parse::<u64>() {
        Ok(value) => match option {
            "--seeds" => index < MOST_SEEDS as usize,
            "--gamma" => value < MODULUS,
            _ => true,
        },
        Err(_) => false,
    }
}

// The first number at fault in an option's list, and its position from 1: one of the wrong form, else one that is too
// large or one too many.
fn faulty_number<'a>(
    alloc: Global,
    option: &str,
    list: &'a str,
) -> Result<Option<(usize, &'a str)>, AllocError> {
    let numbers: Vec<&str> = list.split(',').collect(alloc)?;
    for index in 0..numbers.len() {
        if !is_number(numbers[index]) {
            return Ok(Some((index + 1, numbers[index])));
        }
    }
    for index in 0..numbers.len() {
        if !takes_number(option, index, numbers[index]) {
            return Ok(Some((index + 1, numbers[index])));
        }
    }
    Ok(None)
}

// The line that shows the number at fault in the list at this index. `None` where the word isn't a list, or no number
// in it is at fault.
fn number_line(
    alloc: Global,
    at: usize,
    option: &str,
    word: &str,
) -> Result<Option<Vec<u8>>, AllocError> {
    if !word.contains(',') {
        return Ok(None);
    }
    let Some((count, number)) = faulty_number(alloc, option, word)? else {
        return Ok(None);
    };
    let mut line = format!(in alloc; "number {count} of word {at} is ")?.into_bytes();
    if number.is_empty() {
        line.extend_from_slice(b"empty")?;
    } else {
        add_word(&mut line, number)?;
    }
    line.extend_from_slice(b"\n")?;
    Ok(Some(line))
}

// Whether a line of a help text is the first one on an option.
fn begins_option(line: &str, option: &str) -> bool {
    match line.strip_prefix("  ") {
        Some(rest) => match rest.strip_prefix(option) {
            Some(rest) => rest.starts_with(' '),
            None => false,
        },
        None => false,
    }
}

// Adds the lines of a help text on an option: its values and their range.
fn add_option(lines: &mut Vec<u8>, text: &str, option: &str) -> Result<(), AllocError> {
    let mut is_inside = false;
    for line in text.lines() {
        is_inside = begins_option(line, option) || (is_inside && line.starts_with(CONTINUED));
        if is_inside {
            lines.extend_from_slice(line.as_bytes())?;
            lines.extend_from_slice(b"\n")?;
        }
    }
    Ok(())
}

// The line on a word that is the name of a script's file: a script comes by standard input.
fn script_line(alloc: Global, command: &str, word: &str) -> Result<Option<Vec<u8>>, AllocError> {
    if !word.ends_with(".ped") {
        return Ok(None);
    }
    let mut line = b"a script comes by standard input: pedrun ".to_vec(alloc)?;
    line.extend_from_slice(command.as_bytes())?;
    line.extend_from_slice(b" < ")?;
    add_word(&mut line, word)?;
    line.extend_from_slice(b"\n")?;
    Ok(Some(line))
}

// The option whose value is at this index; empty where no value can be there.
fn option_before(words: &[String], at: usize) -> &str {
    if at < 2 || at % 2 != 0 {
        return "";
    }
    words.get(at - 1).map_or("", String::as_str)
}

// The lines on the faulty word.
fn faulty_word(
    alloc: Global,
    words: &[String],
    at: usize,
    word: &str,
) -> Result<Vec<u8>, AllocError> {
    let option = option_before(words, at);
    let mut lines = match number_line(alloc, at, option, word)? {
        Some(line) => line,
        None => word_line(alloc, at, word)?,
    };
    let command = if at == 0 {
        "run"
    } else {
        words.first().map_or("", String::as_str)
    };
    if let Some(line) = script_line(alloc, command, word)? {
        lines.extend_from_slice(&line)?;
    }
    if let Some(topic) = Topic::of_command(command) {
        if !option.is_empty() {
            add_option(&mut lines, topic.text(), option)?;
        }
    }
    Ok(lines)
}

// The line on how to ask for a command's help.
fn try_command(alloc: Global, command: &str) -> Result<Vec<u8>, AllocError>
    ensures { IfOk result (λ line. line.items ≡ try_line (Some command.now)) }
{
    let mut line = b"try: pedrun ".to_vec(alloc)?;
    line.extend_from_slice(command.as_bytes())?;
    line.extend_from_slice(b" --help\n")?;
    Ok(line)
}

// The line on how to ask for the program's help.
fn try_program(alloc: Global) -> Result<Vec<u8>, AllocError>
    ensures { IfOk result (λ line. line.items ≡ try_line None) }
{
    b"try: pedrun --help\n".to_vec(alloc)
}

// The usage line of a help text.
fn usage(text: &str) -> &str {
    text.lines()
        .find(|line| line.starts_with("Usage: "))
        .unwrap_or("")
}

/// The lines after one on faulty words. They show the word at fault, of a list the number at fault. If the word is the
/// name of a script's file, they say how a script is read; if it is an option's value, what the option takes. For a
/// missing option they show the command's usage. The last line says how to ask for help: on the command, if there is
/// one, else on the program.
pub fn hints(alloc: Global, words: &[String], at: Option<usize>) -> Result<Vec<u8>, AllocError> {
    let command = words.first().map_or("", String::as_str);
    let topic = Topic::of_command(command);
    let mut lines = Vec::new(alloc);
    if let Some(at) = at {
        if let Some(word) = words.get(at) {
            lines.extend_from_slice(&faulty_word(alloc, words, at, word)?)?;
        } else if let Some(topic) = topic {
            lines.extend_from_slice(usage(topic.text()).as_bytes())?;
            lines.extend_from_slice(b"\n")?;
        }
    }
    let last = match topic {
        Some(_) => try_command(alloc, command)?,
        None => try_program(alloc)?,
    };
    lines.extend_from_slice(&last)?;
    Ok(lines)
}
