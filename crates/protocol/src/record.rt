// Records: numbers joined by `.`.
ghost use Rattle.std.specs.Prelude.{◌≡◌};
ghost use Rattle.protocol.specs.Records.{record_of};

use crate::bad::Bad;
use crate::number::number;
use crate::parts::Parts;

// The `N` numbers of a record.
pub fn record<const N: usize>(text: &[u8]) -> Result<[u64; N], Bad>
    ensures { result ≡ record_of N text.now }
{
    let mut parts = Parts::new(text, b'.');
    let mut all = [0; N];
    for slot in &mut all {
        let part = parts.part()?;
        *slot = number(part)?;
    }
    parts.end()?;
    Ok(all)
}
