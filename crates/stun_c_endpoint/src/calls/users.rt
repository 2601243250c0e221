//! The calls on a table of users (RFC 8489, section 9.2.2).
//!
//! A call fails first with `EmptyHandle` if its handle is empty, and with `WrongHandle` if the
//! handle has no table of users.

ghost use Rattle.std.specs.Prelude.{◌≡◌, pos, Some, None, IfErr, IfNone, IfOk};
ghost use Rattle.stun_handles.specs.Numbers.{OrOutOfMemory};
ghost use Rattle.stun_numbers.specs.Refusals.{refusal_number};
ghost use Rattle.stun_c_endpoint.specs.Given.{LeavesFull};
ghost use Rattle.stun_c_endpoint.specs.Kept.{at_handle};
ghost use Rattle.stun_c_endpoint.specs.Users.{LeavesTable, LeavesTableOr, adding, adding_keys};
ghost use Rattle.stun_c_endpoint.specs.Users.{removing, table_for};

use crate::handle::endpoint::EndpointHandle;
use crate::users;
use std::alloc::Global;
use stun_handles::answers;
use stun_numbers::refusal::Refusal;

/// Creates an empty table of users for a server with long-term or short-term credentials. With
/// long-term credentials, the table is for every server of the same `realm`.
///
/// Fails with `FullHandle` if the table's handle is not empty, then with `EmptyHandle` if the
/// server's handle is empty, then with `WrongHandle` if the server's handle has no server or has a
/// server without credentials, then with `OutOfMemory`.
#[unsafe(no_mangle)]
pub extern "C" fn stunp_endpoint_users_new_own(
    alloc: Global,
    users: &mut EndpointHandle,
    server: &mut EndpointHandle,
) -> i64
    ensures full { LeavesFull users.old.kept users.new.kept result }
    ensures none { IfNone users.old.kept (IfErr (at_handle server.old.kept (λ s. table_for s))
        (λ refusal. (result ≡ refusal_number refusal) × (users.new.kept ≡ None))) }
    ensures made { IfNone users.old.kept (IfOk (at_handle server.old.kept (λ s. table_for s))
        (λ table. OrOutOfMemory result None users.new.kept (pos 0) (Some table))) }
    ensures server { server.new.kept ≡ server.old.kept }
{
    if let Some(kept) = users.take(alloc) {
        users.put(alloc, kept);
        return Refusal::FullHandle.code();
    }
    let Some(kept) = server.take(alloc) else {
        return Refusal::EmptyHandle.code();
    };
    let made = users::table(alloc, &kept);
    server.put(alloc, kept);
    match made {
        Ok(made) => {
            users.put(alloc, made);
            0
        }
        Err(refusal) => refusal.code(),
    }
}

/// Frees the table, and makes the handle empty.
#[unsafe(no_mangle)]
pub extern "C" fn stunp_endpoint_users_clear(alloc: Global, users: &mut EndpointHandle)
    ensures { users.new.kept ≡ None }
{
    let _kept = users.take(alloc);
}

/// Adds a user with a password. If the table already has a user with this name, the password
/// replaces the user's password or keys: from now on, only requests that are signed with the new
/// password are accepted.
///
/// Fails with `NotText` if the name or the password is not UTF-8, then with `TextTooLong` if the
/// name has more than 513 bytes, then with `BadArgument` if the name or the password is empty, then
/// with `OutOfMemory`.
#[unsafe(no_mangle)]
pub extern "C" fn stunp_endpoint_users_add(
    alloc: Global,
    users: &mut EndpointHandle,
    name: &[u8],
    password: &[u8],
) -> i64
    ensures { LeavesTableOr (at_handle users.old.kept (λ u. adding name.now password.now u)) result
        users.old.kept users.new.kept }
{
    let Some(mut kept) = users.take(alloc) else {
        return Refusal::EmptyHandle.code();
    };
    let answer = answers::done(users::add_to(alloc, &mut kept, name, password));
    users.put(alloc, kept);
    answer
}

/// Adds a user with stored keys, which must have been made for the realm of the table. If the table
/// already has a user with this name, the keys replace the user's password or keys. The key for
/// HMAC-SHA1 has 16 bytes, and the key for HMAC-SHA256 has 32. An empty key counts as missing.
/// Users with short-term credentials have no stored keys, so for a table of such users the call
/// fails with `WrongHandle`.
///
/// Fails with `NotText` if the name is not UTF-8, then with `TextTooLong` if the name has more than
/// 513 bytes, then with `BadArgument` if the name is empty, both keys are missing or a key has a
/// wrong length, then with `OutOfMemory`.
#[unsafe(no_mangle)]
pub extern "C" fn stunp_endpoint_users_add_keys(
    alloc: Global,
    users: &mut EndpointHandle,
    name: &[u8],
    sha1: &[u8],
    sha256: &[u8],
) -> i64
    ensures { LeavesTableOr (at_handle users.old.kept (λ u. adding_keys name.now sha1.now sha256.now u))
        result users.old.kept users.new.kept }
{
    let Some(mut kept) = users.take(alloc) else {
        return Refusal::EmptyHandle.code();
    };
    let answer = answers::done(users::add_keys_to(alloc, &mut kept, name, sha1, sha256));
    users.put(alloc, kept);
    answer
}

/// Removes the user with this name. Does nothing if the table has no such user. Fails with
/// `NotText` if the name is not UTF-8.
#[unsafe(no_mangle)]
pub extern "C" fn stunp_endpoint_users_remove(
    alloc: Global,
    users: &mut EndpointHandle,
    name: &[u8],
) -> i64
    ensures { LeavesTable (at_handle users.old.kept (λ u. removing name.now u)) result
        users.old.kept users.new.kept }
{
    let Some(mut kept) = users.take(alloc) else {
        return Refusal::EmptyHandle.code();
    };
    let answer = answers::done(users::remove_from(&mut kept, name));
    users.put(alloc, kept);
    answer
}
