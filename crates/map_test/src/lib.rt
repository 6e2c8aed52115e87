// The test of a lent area map (document 01, "Sheets"): one pass over its bytes.
#![tactic(auto)]

pub mod inner;

ghost use Rattle.std.specs.Prelude.{◌≡◌};
ghost use Rattle.willow.specs.Answers.{refusal_of};
ghost use Rattle.map_form.specs.MapTest.{map_refusal};

use willow::Refusal;

// The test of a map: 2.
pub fn test(sheet: &[u8]) -> Result<(), Refusal>
    ensures { refusal_of result ≡ map_refusal sheet.now }
{
    if inner::is_map(sheet) {
        Ok(())
    } else {
        Err(Refusal::BadSheet)
    }
}
