ghost use Rattle.std.specs.Prelude.{◌≡◌, pos};
ghost use Rattle.tt_values.specs.Digest.{digest_of, text_digest};

use crate::value::Value;

const FACTOR: u64 = 257;

const MODULUS: u64 = 1 << 55;

/// A number that depends on the value alone. Different values rarely have the same.
pub fn digest(value: &Value) -> i64
    ensures { result ≡ digest_of value.now }
{
    match value {
        Value::Int(int) => *int,
        Value::Text(text) => text_digest(text.as_str().as_bytes()),
    }
}

#[tactic(auto, unfolding(crate::specs::Digest::text_digest))]
fn text_digest(bytes: &[u8]) -> i64
    ensures { result ≡ pos (text_digest bytes.now) }
{
    let mut digest: u64 = 0;
    for byte in bytes {
        digest = (digest * FACTOR + u64::from(*byte)) % MODULUS;
    }
    digest as i64
}
