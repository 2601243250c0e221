//! Parses the script of `serve`. Each line that is not empty is a call on the server.

use crate::words::{address, algorithm, feature, moment, number};
use hex::FromHexError;
use std::alloc::{AllocError, Global};
use std::time::Duration;
use stun_proto::replay::ServerCall;

/// A script that was parsed.
#[derive(Debug, Drop)]
pub enum Script {
    /// Every line of the script that is not empty is a call. These are the calls, in the order of
    /// the lines.
    Calls(Vec<ServerCall>),
    /// The number of the first line of the script that is neither empty nor a call, counted from 1.
    /// Empty lines are counted too.
    WrongLine(usize),
}

/// Parses a script. A line ends with a line feed or with the end of the input, and empty lines are
/// skipped.
///
/// # Errors
///
/// `AllocError`: an allocation failed.
pub fn read_script(alloc: Global, script: &[u8]) -> Result<Script, AllocError> {
    let mut calls = Vec::new(alloc);
    let mut number: usize = 0;
    for line in script.split(|byte| *byte == b'\n') {
        number = number.saturating_add(1);
        if line.is_empty() {
            continue;
        }
        match read_line(alloc, line)? {
            Some(call) => calls.push(call)?,
            None => return Ok(Script::WrongLine(number)),
        }
    }
    Ok(Script::Calls(calls))
}

/// Parses the call in a line, whose words are separated by single spaces. Returns `None` if the
/// line is not a call.
fn read_line(alloc: Global, line: &[u8]) -> Result<Option<ServerCall>, AllocError> {
    let Ok(text) = str::from_utf8(line) else {
        return Ok(None);
    };
    let mut words = Vec::new(alloc);
    for word in text.split(' ') {
        if word.is_empty() {
            return Ok(None);
        }
        words.push(word)?;
    }
    match words.as_slice() {
        [command, arguments @ ..] => call_of(alloc, command, arguments),
        [] => Ok(None),
    }
}

/// Parses the call that `command` names, with these arguments. Returns `None` if there is no such
/// call, or an argument is wrong.
fn call_of(
    alloc: Global,
    command: &str,
    arguments: &[&str],
) -> Result<Option<ServerCall>, AllocError> {
    match command {
        "user" => add_user(alloc, arguments),
        "remove-user" => remove_user(alloc, arguments),
        "validate" => validate(alloc, arguments),
        "sign" => sign(alloc, arguments),
        "integrity" => Ok(integrity(arguments)),
        "anonymous" => Ok(anonymous(arguments)),
        "remove-client" => Ok(remove_client(arguments)),
        "expiry" => Ok(expiry(arguments)),
        "forget" => Ok(forget(arguments)),
        "forget-address" => Ok(forget_address(arguments)),
        _ => Ok(None),
    }
}

fn add_user(alloc: Global, arguments: &[&str]) -> Result<Option<ServerCall>, AllocError> {
    let [name, password] = arguments else {
        return Ok(None);
    };
    let name = String::from_str(alloc, name)?;
    let password = String::from_str(alloc, password)?;
    Ok(Some(ServerCall::AddUser { name, password }))
}

fn remove_user(alloc: Global, arguments: &[&str]) -> Result<Option<ServerCall>, AllocError> {
    let [name] = arguments else {
        return Ok(None);
    };
    let name = String::from_str(alloc, name)?;
    Ok(Some(ServerCall::RemoveUser(name)))
}

fn validate(alloc: Global, arguments: &[&str]) -> Result<Option<ServerCall>, AllocError> {
    let [from, milliseconds, letters, digits] = arguments else {
        return Ok(None);
    };
    let (Some(from), Some(now), Some(words)) = (
        address(from),
        moment(milliseconds),
        words_of_letters(letters),
    ) else {
        return Ok(None);
    };
    match bytes(alloc, digits)? {
        Some(message) => Ok(Some(ServerCall::Validate {
            from,
            now,
            message,
            words,
        })),
        None => Ok(None),
    }
}

fn sign(alloc: Global, arguments: &[&str]) -> Result<Option<ServerCall>, AllocError> {
    let [to, digits] = arguments else {
        return Ok(None);
    };
    let Some(to) = address(to) else {
        return Ok(None);
    };
    match bytes(alloc, digits)? {
        Some(message) => Ok(Some(ServerCall::Sign { to, message })),
        None => Ok(None),
    }
}

fn integrity(arguments: &[&str]) -> Option<ServerCall> {
    let [change, name] = arguments else {
        return None;
    };
    let algorithm = algorithm(name)?;
    match *change {
        "add" => Some(ServerCall::AddIntegrity(algorithm)),
        "set" => Some(ServerCall::SetIntegrity(algorithm)),
        _ => None,
    }
}

fn anonymous(arguments: &[&str]) -> Option<ServerCall> {
    let [name] = arguments else {
        return None;
    };
    Some(ServerCall::SetAnonymous(feature(name)?))
}

fn remove_client(arguments: &[&str]) -> Option<ServerCall> {
    let [client] = arguments else {
        return None;
    };
    Some(ServerCall::RemoveClient(address(client)?))
}

fn expiry(arguments: &[&str]) -> Option<ServerCall> {
    let [seconds] = arguments else {
        return None;
    };
    Some(ServerCall::SetExpiry(Duration::from_secs(number(seconds)?)))
}

fn forget(arguments: &[&str]) -> Option<ServerCall> {
    let [milliseconds] = arguments else {
        return None;
    };
    Some(ServerCall::ForgetExpired(moment(milliseconds)?))
}

fn forget_address(arguments: &[&str]) -> Option<ServerCall> {
    let [client] = arguments else {
        return None;
    };
    Some(ServerCall::Forget(address(client)?))
}

/// Parses sixteen random numbers, each written as the letter that the number becomes in a nonce.
fn words_of_letters(letters: &str) -> Option<[u32; 16]> {
    if letters.len() != 16 {
        return None;
    }
    let mut words = [0; 16];
    for (word, letter) in words.iter_mut().zip(letters.bytes()) {
        *word = place_of(letter)?;
    }
    Some(words)
}

/// Returns the index of a letter among `A` to `Z`, `a` to `z` and `0` to `9`.
fn place_of(letter: u8) -> Option<u32> {
    match letter {
        b'A'..=b'Z' => Some(u32::from(letter - b'A')),
        b'a'..=b'z' => Some(u32::from(letter - b'a') + 26),
        b'0'..=b'9' => Some(u32::from(letter - b'0') + 52),
        _ => None,
    }
}

/// Parses bytes that are written as hexadecimal digits, two for each byte. Returns `None` if the
/// word is anything else.
fn bytes(alloc: Global, digits: &str) -> Result<Option<Vec<u8>>, AllocError> {
    match hex::decode(alloc, digits.as_bytes()) {
        Ok(bytes) => Ok(Some(bytes)),
        Err(FromHexError::OutOfMemory) => Err(AllocError),
        Err(_) => Ok(None),
    }
}
