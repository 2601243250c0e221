//! The commands and their arguments.

use stun_types::message::IntegrityAlgorithm;

/// A command with its arguments. It has no `Debug`, because an argument may be a password.
#[derive(Clone, Copy, PartialEq, Eq)]
pub enum Command<'a> {
    Help,
    Version,
    Decode,
    List,
    Verify(Who<'a>),
    /// Prints the long-term key of a user for a password. The password may be `-`, as in `Who`.
    Key(IntegrityAlgorithm, User<'a>, &'a str),
    Userhash(User<'a>),
    Nonce(&'a str),
}

/// The command that the arguments name, and the file that it reads.
#[derive(Clone, Copy)]
pub struct Asked<'a> {
    pub command: Command<'a>,
    /// The file to read in place of standard input.
    pub file: Option<&'a str>,
}

/// The credentials to verify a message with. If the password is `-`, the first line of standard
/// input is the password.
#[derive(Clone, Copy, PartialEq, Eq)]
pub struct Who<'a> {
    /// The name and the realm of a user, if the credentials are long-term credentials (RFC 8489,
    /// section 9.2).
    pub user: Option<User<'a>>,
    pub password: &'a str,
}

/// A user's name and realm.
#[derive(Clone, Copy, Debug, PartialEq, Eq)]
pub struct User<'a> {
    pub name: &'a str,
    pub realm: &'a str,
}

/// Parses the arguments. Returns `None` if no command accepts them.
pub fn asked_of(words: &[String]) -> Option<Asked<'_>> {
    let (command, others) = words.split_first()?;
    match command.as_str() {
        "decode" => reading(Command::Decode, others),
        "list" => reading(Command::List, others),
        "verify" => verify_of(others),
        other => Some(Asked {
            command: command_of(other, others)?,
            file: None,
        }),
    }
}

/// Returns the command with this name and these arguments, among the commands that read no message.
fn command_of<'a>(name: &str, words: &'a [String]) -> Option<Command<'a>> {
    match name {
        "-h" | "--help" => words.is_empty().then_some(Command::Help),
        "--version" => words.is_empty().then_some(Command::Version),
        "key" => key_of(words),
        "userhash" => userhash_of(words),
        "nonce" => match words {
            [nonce] => Some(Command::Nonce(nonce.as_str())),
            _ => None,
        },
        _ => None,
    }
}

/// Returns this command with its only argument as the file to read, or without a file if there is
/// no argument. Returns `None` if there are more arguments.
fn reading<'a>(command: Command<'a>, words: &'a [String]) -> Option<Asked<'a>> {
    let file = match words {
        [] => None,
        [file] => Some(file.as_str()),
        _ => return None,
    };
    Some(Asked { command, file })
}

fn verify_of(words: &[String]) -> Option<Asked<'_>> {
    match words {
        [password] => verify(None, password, None),
        [password, file] => verify(None, password, Some(file.as_str())),
        [name, realm, password] => verify(Some(user_of(name, realm)), password, None),
        [name, realm, password, file] => {
            verify(Some(user_of(name, realm)), password, Some(file.as_str()))
        }
        _ => None,
    }
}

fn verify<'a>(
    user: Option<User<'a>>,
    password: &'a str,
    file: Option<&'a str>,
) -> Option<Asked<'a>> {
    Some(Asked {
        command: Command::Verify(Who { user, password }),
        file,
    })
}

fn key_of(words: &[String]) -> Option<Command<'_>> {
    let [algorithm, name, realm, password] = words else {
        return None;
    };
    let algorithm = match algorithm.as_str() {
        "sha1" => IntegrityAlgorithm::Sha1,
        "sha256" => IntegrityAlgorithm::Sha256,
        _ => return None,
    };
    Some(Command::Key(algorithm, user_of(name, realm), password.as_str()))
}

fn userhash_of(words: &[String]) -> Option<Command<'_>> {
    let [name, realm] = words else {
        return None;
    };
    Some(Command::Userhash(user_of(name, realm)))
}

fn user_of<'a>(name: &'a str, realm: &'a str) -> User<'a> {
    User { name, realm }
}
