//! The laws on statuses and on answered lines, each called once, and a script and a service that meet all of their premises: each
//! is told BYE, and no call of what is outside fails.

ghost use Rattle.std.specs.Prelude.{◌≡◌, [], ◌∷◌, Option, Some, false, codes};
ghost use Rattle.doors.specs.Visits.{Visits};
ghost use Rattle.seats.specs.Final.{AreServed};
ghost use Rattle.seats.specs.declared.seat.SeatEnd.TheVariants.{Over};
ghost use Rattle.compress_server.specs.declared.ending.End.TheVariants.{DiskFault};
ghost use Rattle.compress_server.specs.Complete.{IsUndisturbed};
ghost use Rattle.compress_server.specs.Seen.{output_of};
ghost use Rattle.compress_server.specs.Telling.{Ends, TellsEnd};
ghost use Rattle.server_tests.specs.Premises.{clock, untold, script_before, script_after, script_form, service_before, service_after, service_form, seat, final, visit};

use compress_server::{answers_what_it_can, every_line_is_answered, statuses_tell_the_end};
use doors::MemoryListener;
use seats::connections_are_answered;
use std::test::Fail;

fn a_script_is_undisturbed()
    ensures ends { Ends {D = Option Visits} clock (λ d. d) (Some script_form) script_before script_after 0 }
    ensures undisturbed { IsUndisturbed script_before script_after }
{}

// The program's own files, streams, disks and listeners tell nothing.
fn a_script_over_what_tells_nothing_is_undisturbed()
    ensures ends { Ends {D = Option Visits} clock (λ d. d) (Some script_form) untold untold 0 }
    ensures undisturbed { IsUndisturbed untold untold }
{}

fn a_service_is_undisturbed()
    ensures ends { Ends {D = Option Visits} clock (λ d. d) (Some service_form) service_before service_after 0 }
    ensures undisturbed { IsUndisturbed service_before service_after }
{}

fn a_seat_has_served()
    ensures served { AreServed clock final seat 0 false (visit ∷ []) Over }
    ensures runs { final.stopped ≡ false }
{}

fn an_end_is_told()
    ensures { TellsEnd (output_of (Some []) 0) (output_of (Some (codes "disk fault\n")) 1) DiskFault 6 }
{}

#[test]
fn the_laws_have_a_script_and_a_service(_rt: HostRuntime) -> Result<(), Fail> {
    a_script_is_undisturbed();
    a_script_over_what_tells_nothing_is_undisturbed();
    a_service_is_undisturbed();
    a_seat_has_served();
    an_end_is_told();
    Ok(())
}

#[test]
fn the_laws_can_be_called(_rt: HostRuntime) -> Result<(), Fail> {
    answers_what_it_can::<MemoryListener>();
    every_line_is_answered::<MemoryListener>();
    connections_are_answered();
    statuses_tell_the_end();
    Ok(())
}
