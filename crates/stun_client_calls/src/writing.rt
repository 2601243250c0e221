//! Writes the bytes of one message of a request.
ghost use Rattle.std.specs.Option.{option_copied};
ghost use Rattle.std.specs.Prelude.{◌≡◌, ◌⊎◌, ⊤, Err, IfErr, IfOk, Ok, true};
ghost use Rattle.stun_agent.specs.Transactions.{IsRequestOf};
ghost use Rattle.stun_judging.specs.Additions.{UnlessMemory};
ghost use Rattle.stun_client.specs.Judging.{identity_of};
ghost use Rattle.stun_client_calls.specs.Writing.{message_bytes};
ghost use Rattle.stun_client_endpoint.specs.Written.{is_text_too_long};

use crate::asked::Asked;
use stun_base::memory::Memory;
use stun_client::challenge::Challenge;
use stun_client::credentials::Credentials;
use stun_client_endpoint::form::Form;
use stun_types::message::{StunWriteError, TransactionId};

/// Writes a message of a request with this transaction ID, signed for this challenge (see
/// `Form::written`), or unsigned if the options of the request say so.
///
/// # Errors
///
/// - `TooLarge`, before anything is allocated: the text of SOFTWARE has more than 763 bytes.
/// - Otherwise the error of the first part that cannot be added, such as `TooLarge` if the message
///   would be too long, or `OutOfMemory` if an allocation failed.
pub fn message<A: Memory>(
    alloc: A,
    form: &Form<A>,
    credentials: &Credentials<A>,
    signed_for: Option<&Challenge<A>>,
    id: TransactionId,
    asked: &Asked<A>,
) -> Result<Vec<u8, A>, StunWriteError>
    ensures ok { IfOk result (λ bytes. message_bytes form.now (identity_of credentials.now)
        (option_copied signed_for.entry) id asked.now ≡ Ok bytes.items) }
    ensures named { IfOk result (λ bytes. IsRequestOf id bytes.items) }
    ensures refused { IfErr result (λ why. (why ≡ StunWriteError.OutOfMemory)
        ⊎ (message_bytes form.now (identity_of credentials.now) (option_copied signed_for.entry) id
        asked.now ≡ Err why)) }
    ensures granted { A.grants → UnlessMemory result ⊤ ⊥ }
    ensures at_once { is_text_too_long form.now.software ≡ true
        → result ≡ Err StunWriteError.TooLarge }
{
    let method = asked.method();
    // The method has 12 bits and the ID has 96, so the header contains both unchanged.
    prove!(method.value() < 4096);
    prove!(id.as_u128() < 1 << 96);
    let unsigned = Credentials::Unsigned;
    let credentials = asked.credentials(&unsigned, credentials);
    form.written(alloc, credentials, signed_for, method, id, asked.body())
}
