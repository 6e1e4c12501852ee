//! A watch that writes what a machine sends.

ghost use Rattle.std.proofs.Common.{◌∙◌};
ghost use Rattle.std.specs.Prelude.{◌≡◌, ◌<◌, ◌-◌, ◌^◌, false, IfOk, None, OnErr, OnOk, option_to_list, is_some, refl, true};
ghost use Rattle.std.specs.Io.KnownBytes.{Appends, Keeps};
ghost use Rattle.image.specs.Devices.{Counts};
ghost use Rattle.schedules.specs.Output.{output_pace, FellShort, IsPatient, Wrote};
ghost use Rattle.schedules.specs.OutputLaws.{fell_later, wrote_more, wrote_none};

use crate::pace::{Pace, Speed};
use crate::watch::Watch;
use cap_bounds::CapRep;
use hart::Planned;
use image::{DeviceFailed, Sink};
use machine::Machine;

/// How many steps after a byte the sink hands on what it keeps back: about a millisecond.
const PATIENCE: u64 = 100_000;

/// Writes each byte that a machine sends at once. What the sink keeps back it hands on 100,000 steps after the first byte of it.
#[derive(Drop)]
pub struct Output<'a, W: Sink> {
    sink: &'a mut W,
    /// How many steps were done since the first byte that the sink may keep back, if there is one.
    since: Option<u64>,
}

impl<'a, W: Sink> Output<'a, W> {
    /// A watch that writes to this sink.
    pub fn new(sink: &'a mut W) -> Self
        ensures same_reference { result.sink.ghost_name ≡ sink.entry.ghost_name }
        ensures value { result.sink.now ≡ sink.old }
        ensures since { result.since ≡ None }
    {
        Output { sink, since: None }
    }
}

/// Lets the sink hand on what it keeps back, where so many steps more make it long since the first byte of that. Answers how many there
/// were since it, if it is not handed on.
fn settle<W: Sink>(since: Option<u64>, steps: u64, sink: &mut W) -> Option<u64>
    ensures held { Keeps (W.held sink.old) (W.held sink.new) }
    ensures failed { W.failed sink.new ≡ W.failed sink.old }
    ensures patient { IsPatient result }
{
    let since = since?.saturating_add(steps);
    if since < PATIENCE {
        Some(since)
    } else {
        sink.settle();
        None
    }
}

/// Writes the byte that the last of so many steps sent, if it sent one. Answers how many steps were done since the first byte that the sink
/// may keep back, if there is one.
fn write_sent<W: Sink>(
    byte: Option<u8>,
    since: Option<u64>,
    steps: u64,
    sink: &mut W,
) -> Result<Option<u64>, DeviceFailed>
    requires { W.failed sink.old < 2 ^ 64 - 1 }
    ensures ok { OnOk result (Appends (W.held sink.old) (W.held sink.new) (option_to_list byte)) }
    ensures err { OnErr result (Keeps (W.held sink.old) (W.held sink.new)) }
    ensures unwritten { OnErr result (is_some byte ≡ true) }
    ensures count { Counts (W.failed sink.old) (W.failed sink.new) result }
    ensures patient { IfOk result IsPatient }
{
    match byte {
        None => Ok(settle(since, steps, sink)),
        Some(byte) => {
            sink.write(&[byte])?;
            Ok(settle(since.or(Some(0)), steps, sink))
        }
    }
}

/// Steps at once, up to where the sink is to hand on what it keeps back.
fn output_pace(since: Option<u64>) -> Pace
    ensures { result ≡ output_pace since }
{
    match since {
        None => Pace::of(Speed::Any),
        Some(since) => Pace {
            speed: Speed::Any,
            most: PATIENCE.saturating_sub(since),
        },
    }
}

impl<C: CapRep, W: Sink> Watch<Machine<C>> for Output<'_, W> {
    type Fault = DeviceFailed;

    ghost Saw = { λ events s a b. (b.sink.ghost_name ≡ a.sink.ghost_name)
        × Wrote events s (W.held a.sink.now) (W.held b.sink.now) (W.failed a.sink.now) (W.failed b.sink.now) };

    ghost Lost = { λ _ events s a b. (b.sink.ghost_name ≡ a.sink.ghost_name)
        × FellShort events s (W.held a.sink.now) (W.held b.sink.now) (W.failed a.sink.now) (W.failed b.sink.now) };

    ghost Barred = { λ _ _ _ _ _. ⊥ };

    ghost Asked = { λ s a b. b ≡ a };

    ghost IsReady = { λ w. (W.failed w.sink.now < 2 ^ 64 - 1) × IsPatient w.since };

    ghost pace_of = { λ w. output_pace w.since };

    ghost stops_at = { λ _ _. false };

    ghost starts = { λ s w. (refl, wrote_none s (W.held w.sink.now) (W.failed w.sink.now)) };

    ghost goes_on = { λ xs ys s u v w first later. (later.0 ∙ first.0, wrote_more xs ys s _ _ _ _ _ _ first.1 later.1) };

    ghost fails_later = { λ fault xs ys s u v w first later. (later.0 ∙ first.0, fell_later xs ys s _ _ _ _ _ _ first.1 later.1) };

    ghost bars_later = { λ fault xs ys s u v w first later. later };

    fn pace(&self) -> Pace {
        output_pace(self.since)
    }

    fn stops(&self, _machine: &Machine<C>, _planned: &Planned<C>) -> bool {
        false
    }

    fn came(&mut self, _machine: &Machine<C>) {}

    fn passed(
        &mut self,
        _machine: &Machine<C>,
        steps: u64,
        sent: Option<u8>,
    ) -> Result<(), DeviceFailed> {
        match write_sent(sent, self.since, steps, self.sink) {
            Ok(since) => {
                self.since = since;
                Ok(())
            }
            Err(fault) => Err(fault),
        }
    }

    fn before(&mut self, _machine: &Machine<C>, _planned: &Planned<C>) -> Result<(), DeviceFailed> {
        Ok(())
    }

    fn after(&mut self, _machine: &Machine<C>, sent: Option<u8>) -> Result<(), DeviceFailed> {
        match write_sent(sent, self.since, 1, self.sink) {
            Ok(since) => {
                self.since = since;
                Ok(())
            }
            Err(fault) => Err(fault),
        }
    }
}
