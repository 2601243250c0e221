//! Calls of the derived impls of the authenticators' types, to state their results: clones and
//! comparisons.
ghost use Rattle.std.specs.Prelude.{◌≡◌, Ok, IsTrue, ◌↔◌};

use crate::client::answer::{
    LongTermClientAuthError, LongTermClientAuthErrorReason, LongTermClientValidation,
};
use crate::server::reason::{
    LongTermServerAuthError, LongTermServerAuthErrorReason, LongTermServerValidation,
};
use std::alloc::AllocError;

/// Clones results and reasons of both sides. The clones are equal to the originals.
pub fn copied_answers(
    server: &LongTermServerValidation,
    client: &LongTermClientValidation,
    server_reason: &LongTermServerAuthErrorReason,
    client_reason: &LongTermClientAuthErrorReason,
) -> Result<
    (
        LongTermServerValidation,
        LongTermClientValidation,
        LongTermServerAuthErrorReason,
        LongTermClientAuthErrorReason,
    ),
    AllocError,
>
    ensures { result ≡ Ok (server.now, client.now, server_reason.now, client_reason.now) }
{
    Ok((
        server.clone()?,
        client.clone()?,
        server_reason.clone()?,
        client_reason.clone()?,
    ))
}

/// Clones the errors of both sides. The clones have the same reasons.
pub fn copied_refusals(
    server: &LongTermServerAuthError,
    client: &LongTermClientAuthError,
) -> Result<(LongTermServerAuthError, LongTermClientAuthError), AllocError>
    ensures { result ≡ Ok (server.now, client.now) }
{
    Ok((server.clone()?, client.clone()?))
}

/// Returns whether two results of a server are equal: they have the same algorithm.
pub fn is_same_server_validation(
    one: LongTermServerValidation,
    other: LongTermServerValidation,
) -> bool
    ensures { IsTrue result ↔ (one ≡ other) }
{
    one == other
}

/// Returns whether two results of a client are equal: the same variant with the same algorithm.
pub fn is_same_client_validation(
    one: LongTermClientValidation,
    other: LongTermClientValidation,
) -> bool
    ensures { IsTrue result ↔ (one ≡ other) }
{
    one == other
}

/// Returns whether two error reasons of a server are the same variant.
pub fn is_same_server_reason(
    one: LongTermServerAuthErrorReason,
    other: LongTermServerAuthErrorReason,
) -> bool
    ensures { IsTrue result ↔ (one ≡ other) }
{
    one == other
}

/// Returns whether two error reasons of a client are the same variant.
pub fn is_same_client_reason(
    one: LongTermClientAuthErrorReason,
    other: LongTermClientAuthErrorReason,
) -> bool
    ensures { IsTrue result ↔ (one ≡ other) }
{
    one == other
}

/// Returns whether two errors of a server are equal: they have the same reason.
pub fn is_same_server_refusal(one: LongTermServerAuthError, other: LongTermServerAuthError) -> bool
    ensures { IsTrue result ↔ (one ≡ other) }
{
    one == other
}

/// Returns whether two errors of a client are equal: they have the same reason.
pub fn is_same_client_refusal(one: LongTermClientAuthError, other: LongTermClientAuthError) -> bool
    ensures { IsTrue result ↔ (one ≡ other) }
{
    one == other
}
