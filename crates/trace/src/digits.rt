// A frame as hex text: twelve digits, of either case.
ghost use Rattle.std.specs.Prelude.{◌≡◌};
ghost use Rattle.trace.specs.Digits.{frame_digits};

use hex::FromHex;

// The six bytes of a frame; none where the text is not twelve hex digits.
#[tactic(auto, using(crate::proofs::Spelling::spelled))]
pub fn read_digits(text: &[u8]) -> Option<[u8; 6]>
    ensures { result ≡ frame_digits text.now }
{
    <[u8; 6] as FromHex>::from_hex(text).ok()
}
