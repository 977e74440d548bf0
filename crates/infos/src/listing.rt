// All codes of an info in the caller's records.
ghost use Rattle.std.specs.Prelude.{◌≡◌, ◌≤◌, true, ◌++◌, length, drop, is_ok};
ghost use Rattle.std.specs.Result.{result_map_both};
ghost use Rattle.infos.specs.Codings.{codes_left};
ghost use Rattle.infos.specs.Listings.{listing_in, records_in, listed};
ghost use Rattle.infos.specs.Refusals.{list_fault};
ghost use Rattle.infos.specs.Sequences.{gathered};

use crate::code::Code;
use crate::codes::Codes;
use crate::reading::read_info;
use crate::refusal::ListRefusal;
use layout::address::Rva;
use records::list::RecordList;
use tables::area::InfoArea;

// Appends codes, none of which is refused, to a list over enough records.
fn write_codes(codes: Codes<'_>, records: &mut [Code])
    requires { (is_ok (gathered (codes_left codes)) ≡ true) × (length (listed (gathered (codes_left codes))) ≤ length records.old) }
    ensures { records.new ≡ listed (gathered (codes_left codes.entry)) ++ drop (length (listed (gathered (codes_left codes.entry)))) records.old }
{
    let mut list = RecordList::new(records);
    for code in codes {
        list.push(code.unwrap()).unwrap();
    }
}

// Fills the caller's records with the codes of the info at an RVA, in array order, and answers how many there are.
// A refusal, with 22 last, changes no record; the records past the codes stay.
pub fn list_codes(area: InfoArea<'_>, rva: Rva, records: &mut [Code]) -> Result<usize, ListRefusal>
    ensures answer { result_map_both (λ n. n) list_fault result ≡ listing_in area.entry rva (length records.old) }
    ensures after { records.new ≡ records_in area.entry rva records.old result }
{
    let info = read_info(area, rva)?;
    let n = info.codes().check()?;
    if n > records.len() {
        return Err(ListRefusal::TooFewRecords);
    }
    write_codes(info.codes(), records);
    Ok(n)
}
