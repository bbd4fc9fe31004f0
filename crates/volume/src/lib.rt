// The volume directory's records (document 01, "First records and what they promise"): its descriptor
// with the pointer count that it names, the pointers, and the text record. Places are in the record,
// from 0.
#![tactic(auto)]

ghost use Rattle.std.specs.Prelude.{◌≡◌, [], ◌∷◌};
ghost use Rattle.verdicts.specs.Tests.{first_fault, text_test};
ghost use Rattle.verdicts.specs.Numbers.{number_at};
ghost use Rattle.volume.specs.Volume.{pointer_tests, class_text, volume_record, described_of};
ghost use Rattle.decimal.specs.declared.Form.TheVariants.{I8};

use decimal::Form;
use fields::Field;
use verdicts::Verdict;
use words::Refusal;

// The descriptor: its text, then the pointer count that it names, 3 to 6; or its first fault.
#[tactic(auto, using(verdicts::proofs::RowLaws::steps), unfolding(crate::specs::Volume::described_of, crate::specs::Volume::volume_tests))]
pub fn descriptor(r: &[u8]) -> Result<u64, Refusal>
    ensures { result ≡ described_of r.now }
{
    verdicts::first_text(r)?;
    let pointers = verdicts::number(r, 161, Form::I4, 3, 6)?;
    Ok(verdicts::whole(pointers.units))
}

// The class of pointer k of m: `SARL` first, `SART` last, `IMOP` between.
#[tactic(auto, unfolding(crate::specs::Volume::class_text))]
fn class(m: u64, k: u64, r: &[u8]) -> Verdict
    ensures { result ≡ first_fault (text_test r.now 65 (class_text m k) ∷ []) }
{
    let text = if k == 1 {
        b"SARL"
    } else if k == m {
        b"SART"
    } else {
        b"IMOP"
    };
    verdicts::fixed(r, 65, text)
}

// Pointer k of m: its class, its record count, and its first record length, exactly 720.
#[tactic(auto, using(verdicts::proofs::RowLaws::steps), unfolding(crate::specs::Volume::pointer_tests))]
fn pointer(m: u64, k: u64, r: &[u8]) -> Verdict
    ensures { result ≡ first_fault (pointer_tests m k r.now) }
{
    class(m, k, r)?;
    verdicts::number(r, 101, Form::I8, 1, 99999999)?;
    verdicts::number(r, 109, Form::I8, 720, 720)?;
    Ok(())
}

// Record k behind the descriptor of a directory with m pointers: a pointer, or the text record, whose
// bytes are free.
#[tactic(auto, unfolding(crate::specs::Volume::volume_record, verdicts::specs::Tests::first_fault))]
pub fn record(run: u64, m: u64, k: u64, r: &[u8]) -> Verdict
    requires { run ≡ 0 → ⊥ }
    ensures { result ≡ first_fault (volume_record run m k r.now) }
{
    if run == 1 {
        return pointer(m, k, r);
    }
    Ok(())
}

// The number that a field of eight columns says at document 01's byte; 0 where it says none. Of a
// directory that has passed every pointer's record count is one.
pub fn count_at(directory: &[u8], byte: usize) -> u64
    ensures { result ≡ number_at directory.now byte I8 }
{
    let Field::Value(units, _) = verdicts::field(directory, byte, Form::I8) else {
        return 0;
    };
    verdicts::whole(units)
}
