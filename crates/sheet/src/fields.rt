// Reading one slip: its map, its fields, and whether its patterns are admitted.
ghost use Rattle.std.specs.Prelude.{◌≡◌, ◌+◌, ◌<◌, ◌≤◌, ◌++◌, length, slice_index, Some, Option, Ok, Err, IfOk};
ghost use Rattle.sheet.specs.Layout.{has_zero, has_order, has_claim, has_tolerance, is_map, order_at, claim_at, tolerance_at, end_at, field as field_of, task_of, slip_at, pattern_faults, zero_faults, task_faults, slip_with_map};
ghost use Rattle.sheet.specs.Faults.{told_check, first_of};
ghost use Rattle.sheet.specs.Reading.{told_field, told_zero, told_task, told_slip, told_slip_reading};

use crate::fault::{NumberFault, SlipFault};
use crate::place::Place;
use crate::slip::{Field, Slip, Task};
use arithmetic::Arithmetic;

// The field of N bytes at a place.
fn field<'s, const N: usize>(sheet: &'s [u8], place: Place) -> Field<'s, N>
    requires { place.byte + N ≤ length sheet.now }
    ensures { told_field result ≡ field_of sheet.now place.slip place.byte N }
{
    let bytes = sheet[place.byte..].first_chunk().unwrap();
    Field { bytes, place }
}

// The map of a slip: which fields it has.
#[derive(Clone, Copy)]
struct Map(u8);

impl Map {
    fn has_zero(self) -> bool
        ensures { result ≡ has_zero self.0 }
    {
        self.0 & 1 != 0
    }

    fn has_order(self) -> bool
        ensures { result ≡ has_order self.0 }
    {
        self.0 >> 1 & 1 != 0
    }

    fn has_claim(self) -> bool
        ensures { result ≡ has_claim self.0 }
    {
        self.0 >> 2 & 1 != 0
    }

    fn has_tolerance(self) -> bool
        ensures { result ≡ has_tolerance self.0 }
    {
        self.0 >> 3 & 1 != 0
    }

    // Where the order would stand of a slip that begins at a byte, then the claim and the tolerance, and where it ends.
    fn order_at(self, byte: usize) -> usize
        requires { byte ≤ 32768 }
        ensures place { result ≡ order_at self.0 byte }
        ensures after { (byte < result) × (result ≤ byte + 9) }
    {
        if self.has_zero() { byte + 9 } else { byte + 1 }
    }

    fn claim_at(self, byte: usize) -> usize
        requires { byte ≤ 32768 }
        ensures place { result ≡ claim_at self.0 byte }
        ensures after { (byte < result) × (result ≤ byte + 10) }
    {
        let order = self.order_at(byte);
        if self.has_order() { order + 1 } else { order }
    }

    fn tolerance_at(self, byte: usize) -> usize
        requires { byte ≤ 32768 }
        ensures place { result ≡ tolerance_at self.0 byte }
        ensures after { (byte < result) × (result ≤ byte + 18) }
    {
        let claim = self.claim_at(byte);
        if self.has_claim() { claim + 8 } else { claim }
    }

    fn end_at(self, byte: usize) -> usize
        requires { byte ≤ 32768 }
        ensures place { result ≡ end_at self.0 byte }
        ensures after { byte < result }
    {
        let tolerance = self.tolerance_at(byte);
        if self.has_tolerance() {
            tolerance + 8
        } else {
            tolerance
        }
    }

    // Whether slips may have it.
    fn is_known(self) -> bool
        ensures { result ≡ is_map self.0 }
    {
        matches!(self.0, 0..=3 | 14 | 15)
    }
}

// The task of a slip whose bytes are all there.
fn task<'s>(sheet: &'s [u8], map: Map, place: Place) -> Option<Task<'s>>
    requires within { end_at map.0 place.byte ≤ length sheet.now }
    requires short { length sheet.now ≤ 32768 }
    ensures { told_task result ≡ task_of sheet.now place.slip map.0 place.byte }
{
    let at = |byte: usize| Place { byte, ..place };
    let order = at(map.order_at(place.byte));
    if map.has_claim() && map.has_tolerance() {
        return Some(Task::Examine {
            order: field(sheet, order),
            claim: field(sheet, at(map.claim_at(place.byte))),
            tolerance: field(sheet, at(map.tolerance_at(place.byte))),
        });
    }
    if map.has_order() {
        return Some(Task::Ask {
            order: field(sheet, order),
        });
    }
    None
}

// Whether a pattern is admitted.
fn check_pattern<A: Arithmetic>(arith: &A, pattern: Field<'_, 8>) -> Result<(), NumberFault>
    requires law { A.lawful arith.now }
    ensures { told_check result ≡ pattern_faults (A.setting arith.now).meaning (told_field pattern.entry) }
{
    let place = pattern.place;
    arith
        .admit(pattern.bytes)
        .map(|_| ())
        .map_err(|cause| NumberFault { place, cause })
}

// Whether each pattern of a slip is admitted: its zero, its claim and its tolerance.
fn check_patterns<A: Arithmetic>(arith: &A, slip: Slip<'_>) -> Result<(), NumberFault>
    requires law { A.lawful arith.now }
    ensures { told_check result ≡ first_of (zero_faults (A.setting arith.now).meaning (told_zero slip.entry.zero) ++ task_faults (A.setting arith.now).meaning (told_task slip.entry.task)) }
{
    if let Some(zero) = slip.zero {
        check_pattern(arith, zero)?;
    }
    if let Some(
        Task::Examine {
            claim,
            tolerance,
            ..
        },
    ) = slip.task
    {
        check_pattern(arith, claim)?;
        check_pattern(arith, tolerance)?;
    }
    Ok(())
}

// The slip whose bytes are all there.
fn slip<'s>(sheet: &'s [u8], map: Map, place: Place) -> Slip<'s>
    requires within { end_at map.0 place.byte ≤ length sheet.now }
    requires short { length sheet.now ≤ 32768 }
    ensures { told_slip result ≡ slip_at sheet.now place.slip map.0 place.byte }
{
    let byte = place.byte + 1;
    Slip {
        zero: map
            .has_zero()
            .then(|| field(sheet, Place { byte, ..place })),
        task: task(sheet, map, place),
    }
}

// The slip whose map stands at a place, and the byte after it.
pub(crate) fn read_slip<'s, A: Arithmetic>(
    arith: &A,
    sheet: &'s [u8],
    place: Place,
) -> Result<(Slip<'s>, usize), SlipFault>
    requires law { A.lawful arith.now }
    requires within { place.byte < length sheet.now }
    requires short { length sheet.now ≤ 32768 }
    ensures answer { told_slip_reading result ≡ slip_with_map (A.setting arith.now).meaning sheet.now place.slip (slice_index sheet.now place.byte) place.byte }
    ensures within { IfOk result (λ p. (place.byte < p.1) × (p.1 ≤ length sheet.now)) }
{
    let map = Map(sheet[place.byte]);
    if !map.is_known() {
        return Err(SlipFault::Map(place));
    }
    let end = map.end_at(place.byte);
    if end > sheet.len() {
        return Err(SlipFault::Short(place));
    }
    let slip = slip(sheet, map, place);
    check_patterns(arith, slip)?;
    Ok((slip, end))
}
