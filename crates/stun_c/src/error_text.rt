//! The English texts for the errors in `include/stunp.h`.

ghost use Rattle.std.specs.Prelude.{◌≡◌};
ghost use Rattle.stun_c.specs.Codes.{error_text, refusal_text};

/// Returns the text for the error with the code `-number`, with a terminating zero.
#[tactic(auto, unfolding(crate::specs::Codes::refusal_text))]
fn describe_refusal(number: u64) -> &'static [u8]
    ensures { result.now ≡ refusal_text number }
{
    match number {
        1 => b"bytes are missing at the end\0",
        2 => b"the bytes are not a STUN message\0",
        3 => b"bytes come after the message\0",
        4 => b"the message has no integrity attribute\0",
        5 => b"the integrity attribute is malformed\0",
        6 => b"the digest is not that of the message\0",
        7 => b"an argument is out of range\0",
        8 => b"a text is not UTF-8\0",
        9 => b"a text is too long for its attribute\0",
        10 => b"the buffer is too small\0",
        11 => b"the attribute is not written by this call\0",
        12 => b"the message is closed by an integrity attribute or FINGERPRINT\0",
        13 => b"the message has an attribute of this type\0",
        14 => b"the message would be too long\0",
        15 => b"the attribute is missing\0",
        16 => b"the attribute is malformed\0",
        17 => b"an allocation failed\0",
        18 => b"the handle is empty\0",
        19 => b"the handle is full already\0",
        20 => b"a request of this id is outstanding\0",
        21 => b"this call does not take the message or its address\0",
        22 => b"the message is not sufficiently authenticated\0",
        23 => b"the request is not well-formed\0",
        24 => b"the nonce is not the current one\0",
        25 => b"a required feature is not supported\0",
        26 => b"a request would be sent again without a wait\0",
        27 => b"as many addresses are kept as may be\0",
        28 => b"there is no key to sign with\0",
        29 => b"the handle has a value of another kind, realm or algorithm\0",
        _ => b"unknown refusal\0",
    }
}

/// Returns the text for the result of a call, with a terminating zero.
pub fn error_text(answer: i64) -> &'static [u8]
    ensures { result.now ≡ error_text answer }
{
    if answer < 0 {
        return describe_refusal(answer.unsigned_abs());
    }
    b"no error\0"
}
