//! Creates tables of users, and adds users to a table and removes them from it.

ghost use Rattle.std.specs.Prelude.{◌≡◌, IfErr, IfOk, MatchResult, Ok, Err, Some};
ghost use Rattle.stun_handles.specs.Numbers.{done_answer};
ghost use Rattle.stun_numbers.specs.Refusals.{refusal_or};
ghost use Rattle.stun_c_endpoint.specs.Users.{LeavesTable, LeavesTableOr, adding, adding_keys};
ghost use Rattle.stun_c_endpoint.specs.Users.{name_refusal, no_key_refusal, password_refusal};
ghost use Rattle.stun_c_endpoint.specs.Users.{removing, table_for, with_stored};
ghost use Rattle.stun_c_endpoint.specs.declared.handle.endpoint.Kept.TheVariants as kind;

pub mod laws;

use crate::handle::endpoint::Kept;
use std::alloc::Global;
use stun_base::credentials::{LongTermCredentials, ShortTermCredentials};
use stun_endpoint::short_term::ShortTermUsers;
use stun_endpoint::users::Users;
use stun_handles::keys::keys_of;
use stun_handles::text::copied;
use stun_numbers::refusal::Refusal;
use stun_numbers::text::text;
use stun_types::limits::USERNAME_LIMIT;

/// Checks that a name is not empty and fits into USERNAME. Fails with `BadArgument` if the name is
/// empty, and with `TextTooLong` if it has more than 513 bytes.
pub fn check_name(name: &str) -> Result<(), Refusal>
    ensures { result ≡ refusal_or (name_refusal name.now) (Ok tt) }
{
    if name.is_empty() {
        return Err(Refusal::BadArgument);
    }
    if name.len() > USERNAME_LIMIT {
        return Err(Refusal::TextTooLong);
    }
    Ok(())
}

/// Checks that a user has a key. Fails with `BadArgument` if both keys are empty.
pub fn check_keys(sha1: &[u8], sha256: &[u8]) -> Result<(), Refusal>
    ensures { result ≡ refusal_or (no_key_refusal sha1.now sha256.now) (Ok tt) }
{
    if sha1.is_empty() && sha256.is_empty() {
        return Err(Refusal::BadArgument);
    }
    Ok(())
}

/// Checks that a password is not empty. Fails with `BadArgument` if it is.
pub fn check_password(password: &str) -> Result<(), Refusal>
    ensures { result ≡ refusal_or (password_refusal password.now) (Ok tt) }
{
    if password.is_empty() {
        return Err(Refusal::BadArgument);
    }
    Ok(())
}

/// Creates an empty table of users for a server. Fails with `WrongHandle` if the value is not a
/// server, or is a server without credentials.
pub fn table(alloc: Global, server: &Kept) -> Result<Box<Kept, Global>, Refusal>
    ensures none { IfErr (table_for server.now) (λ refusal. result ≡ Err refusal) }
    ensures made { IfOk (table_for server.now) (λ table. MatchResult result
        (λ made. made.value ≡ table) (λ refusal. refusal ≡ Refusal.OutOfMemory)) }
{
    match server {
        Kept::Server(server) => {
            let users = server.users()?;
            box_table(alloc, Kept::Users(users))
        }
        Kept::ShortTerm(_) => box_table(alloc, Kept::ShortTermUsers(ShortTermUsers::new(alloc))),
        _ => Err(Refusal::WrongHandle),
    }
}

/// Moves a table to the heap.
fn box_table(alloc: Global, table: Kept) -> Result<Box<Kept, Global>, Refusal>
    ensures { MatchResult result (λ made. made.value ≡ table)
        (λ refusal. refusal ≡ Refusal.OutOfMemory) }
{
    match Box::new(alloc, table) {
        Ok(made) => Ok(made),
        Err(_) => Err(Refusal::OutOfMemory),
    }
}

/// Adds a user with a password to a table of users with long-term credentials.
fn add(
    alloc: Global,
    users: &mut Users<Global>,
    name: &[u8],
    password: &[u8],
) -> Result<(), Refusal>
    ensures { LeavesTableOr (adding name.now password.now (kind.Users users.old))
        (done_answer result) (Some (kind.Users users.old)) (Some (kind.Users users.new)) }
{
    let name = text(name)?;
    let password = text(password)?;
    check_name(name)?;
    check_password(password)?;
    let name = copied(alloc, name)?;
    let credentials = LongTermCredentials::new(name, copied(alloc, password)?);
    Ok(users.add(credentials)?)
}

/// Adds a user with a password to a table of users with short-term credentials.
fn add_short_term(
    alloc: Global,
    users: &mut ShortTermUsers<Global>,
    name: &[u8],
    password: &[u8],
) -> Result<(), Refusal>
    ensures { LeavesTableOr (adding name.now password.now (kind.ShortTermUsers users.old))
        (done_answer result) (Some (kind.ShortTermUsers users.old))
        (Some (kind.ShortTermUsers users.new)) }
{
    let name = text(name)?;
    let password = text(password)?;
    check_name(name)?;
    check_password(password)?;
    let credentials = ShortTermCredentials::new(copied(alloc, password)?);
    Ok(users.add(copied(alloc, name)?, credentials)?)
}

/// Adds a user with stored keys to a table of users with long-term credentials.
fn add_keys(
    alloc: Global,
    users: &mut Users<Global>,
    name: &[u8],
    sha1: &[u8],
    sha256: &[u8],
) -> Result<(), Refusal>
    ensures { LeavesTableOr (with_stored users.old name.now sha1.now sha256.now)
        (done_answer result) (Some (kind.Users users.old)) (Some (kind.Users users.new)) }
{
    let name = text(name)?;
    check_name(name)?;
    check_keys(sha1, sha256)?;
    let keys = keys_of(sha1, sha256)?;
    Ok(users.add_with_keys(copied(alloc, name)?, keys)?)
}

/// Removes a user from a table of users with long-term credentials.
fn remove(users: &mut Users<Global>, name: &[u8]) -> Result<(), Refusal>
    ensures { LeavesTable (removing name.now (kind.Users users.old)) (done_answer result)
        (Some (kind.Users users.old)) (Some (kind.Users users.new)) }
{
    let name = text(name)?;
    users.remove(name);
    Ok(())
}

/// Removes a user from a table of users with short-term credentials.
fn remove_short_term(users: &mut ShortTermUsers<Global>, name: &[u8]) -> Result<(), Refusal>
    ensures { LeavesTable (removing name.now (kind.ShortTermUsers users.old)) (done_answer result)
        (Some (kind.ShortTermUsers users.old)) (Some (kind.ShortTermUsers users.new)) }
{
    let name = text(name)?;
    users.remove(name);
    Ok(())
}

/// Adds a user with a password to a table of either kind. Fails with `WrongHandle` if the value is
/// not a table.
pub fn add_to(alloc: Global, kept: &mut Kept, name: &[u8], password: &[u8]) -> Result<(), Refusal>
    ensures { LeavesTableOr (adding name.now password.now kept.old) (done_answer result)
        (Some kept.old) (Some kept.new) }
{
    match kept {
        Kept::Users(users) => add(alloc, users, name, password),
        Kept::ShortTermUsers(users) => add_short_term(alloc, users, name, password),
        _ => Err(Refusal::WrongHandle),
    }
}

/// Adds a user with stored keys to a table. Fails with `WrongHandle` if the value is not a table of
/// users with long-term credentials.
pub fn add_keys_to(
    alloc: Global,
    kept: &mut Kept,
    name: &[u8],
    sha1: &[u8],
    sha256: &[u8],
) -> Result<(), Refusal>
    ensures { LeavesTableOr (adding_keys name.now sha1.now sha256.now kept.old)
        (done_answer result) (Some kept.old) (Some kept.new) }
{
    match kept {
        Kept::Users(users) => add_keys(alloc, users, name, sha1, sha256),
        _ => Err(Refusal::WrongHandle),
    }
}

/// Removes a user from a table of either kind. Fails with `WrongHandle` if the value is not a
/// table.
pub fn remove_from(kept: &mut Kept, name: &[u8]) -> Result<(), Refusal>
    ensures { LeavesTable (removing name.now kept.old) (done_answer result) (Some kept.old)
        (Some kept.new) }
{
    match kept {
        Kept::Users(users) => remove(users, name),
        Kept::ShortTermUsers(users) => remove_short_term(users, name),
        _ => Err(Refusal::WrongHandle),
    }
}
