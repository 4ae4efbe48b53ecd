//! Schedules, worked out.
ghost use Rattle.std.specs.Prelude.{◌≡◌, ◌≤◌, ℕ, Some};
ghost use Rattle.ring_records.specs.Admission.{newest};
ghost use Rattle.ring_records.specs.Leader.{leader};
ghost use Rattle.ring_records.specs.Part.{part};
ghost use Rattle.ring_records.specs.WorkedRetire as relay;
ghost use Rattle.ring_records.specs.WorkedRetire.{retired_relay};
ghost use Rattle.ring_records.specs.WorkedRun.{red_5, winner, first_election};
ghost use Rattle.ring_audit.specs.Placement.{IsWhole};
ghost use Rattle.ring_world.specs.Agreement.{IsDrained, IsRetiredNowhere};
ghost use Rattle.ring_world.specs.Capacity.{committed, state_after, all_fresh};
ghost use Rattle.ring_world.specs.Events.{Launch, LaunchAll};
ghost use Rattle.ring_world.specs.CapacitySchedule.{IsSchedule};
ghost use Rattle.ring_world.specs.Histories.{histories};
ghost use Rattle.ring_world.specs.Released.{IsAnnounced};
ghost use Rattle.ring_world.specs.WorkedSchedule.{election_events, alone, crash_events, crash_run, retire_events, three_layouts, layout_events, layout_run};

/// There are schedules with a leader. In an election of three nodes the inputs become durable in the order of the
/// worked run, in which each message is taken and no term retired, and the one of the greatest bid is announced. Of two
/// batches that fly at a crash one is lost and one is kept, and a leader is announced after it; so it is with two
/// checkpoints. A leader is announced behind a Retire, which becomes durable as in the worked run with one. And where
/// three versions formatted the journals of three nodes a leader is announced, each of them knows it, one journal comes
/// to be of the newest layout, and what is durable is whole.
pub fn worked_schedules()
    ensures election { IsSchedule all_fresh 3 65536 election_events }
    ensures election_durable { committed all_fresh 3 65536 election_events ≡ first_election }
    ensures election_announced { IsAnnounced election_events red_5 winner }
    ensures drained { IsDrained 3 first_election }
    ensures live { IsRetiredNowhere 3 first_election red_5 }
    ensures crashes { IsSchedule all_fresh 2 4096 (crash_events Launch) }
    ensures crashes_durable { committed all_fresh 2 4096 (crash_events Launch) ≡ crash_run }
    ensures crashes_announced { IsAnnounced (crash_events Launch) red_5 alone }
    ensures checkpoints { IsSchedule all_fresh 2 4096 (crash_events (LaunchAll newest)) }
    ensures checkpoints_durable { committed all_fresh 2 4096 (crash_events (LaunchAll newest)) ≡ crash_run }
    ensures checkpoints_announced { IsAnnounced (crash_events (LaunchAll newest)) red_5 alone }
    ensures retire { IsSchedule all_fresh 2 4096 retire_events }
    ensures retire_durable { committed all_fresh 2 4096 retire_events ≡ retired_relay }
    ensures retire_announced { IsAnnounced retire_events (relay.red 9) relay.alone }
    ensures layouts { IsSchedule three_layouts 3 4096 layout_events }
    ensures layouts_durable { committed three_layouts 3 4096 layout_events ≡ layout_run }
    ensures layouts_announced { IsAnnounced layout_events red_5 alone }
    ensures layouts_decide { (i : ℕ) → 1 ≤ i → i ≤ 3 → leader i (part layout_run i) red_5 ≡ Some alone }
    ensures layouts_renewed { (state_after three_layouts 3 4096 layout_events 1).base.layout ≡ newest }
    ensures layouts_whole { IsWhole (histories three_layouts 3 4096 layout_events) layout_run }
{}
