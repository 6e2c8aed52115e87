// For C: the calls of `host_map_reading`, as a static library. Each is the call of that name there, and promises what that promises;
// the head of `host_map_reading` says how its arguments are passed.
#![tactic(auto)]

ghost use Rattle.std.specs.Prelude.{◌≡◌};
ghost use Rattle.willow.specs.Answers.{written_buffer, written_length};
ghost use Rattle.convention.specs.Exports.{given, itself};
ghost use Rattle.map_reading.specs.Rules.{count_outcome, rule_path, rule_read};
ghost use Rattle.host_map_reading.specs.MapExports.{given_rule};

use convention::Answer;
use host_map_reading::RuleAnswer;

// How many rules a map has. Refuses 2.
#[unsafe(no_mangle)]
pub extern "C" fn wotskrale_map_count(sheet: &[u8]) -> Answer
    ensures { result ≡ given itself (count_outcome sheet.now) }
{
    host_map_reading::wotskrale_map_count(sheet)
}

// Rule i but for its path; none past the last. Refuses 2.
#[unsafe(no_mangle)]
pub extern "C" fn wotskrale_map_rule(sheet: &[u8], i: u64) -> RuleAnswer
    ensures { result ≡ given_rule (rule_read sheet.now i) }
{
    host_map_reading::wotskrale_map_rule(sheet, i)
}

// The packed path of rule i written to the front of a buffer; answers its length, none past the last. Refuses 2, then 15.
#[unsafe(no_mangle)]
pub extern "C" fn wotskrale_map_rule_path(sheet: &[u8], i: u64, out: &mut [u8]) -> Answer
    ensures value { result ≡ given itself (written_length (rule_path sheet.now i) out.old) }
    ensures out_after { out.new ≡ written_buffer (rule_path sheet.now i) out.old }
{
    host_map_reading::wotskrale_map_rule_path(sheet, i, out)
}
