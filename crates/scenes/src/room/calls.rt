//! Scripted tests that are run again and again, each time with one request for memory refused. They
//! print their calls and how each ended, which dev/starve compares.
mod tables;

use crate::follow::follow;
use crate::row_reports::{NO_ROOM, say, tell_row, word_of};
use crate::scripted_filters::{Refused, THE_TEST};
use tables::{CALLED, Called};

// Prints each call of a scripted test that was whole.
fn say_whole(rt: &HostRuntime, calls: &[&str]) -> bool {
    let mut all = true;
    for call in calls {
        all &= say(rt, call, "whole");
    }
    all
}

// Prints the call that was refused, or that there was no room for the test.
fn say_refused(rt: &HostRuntime, test: &str, refused: Refused) -> bool {
    if refused.call == THE_TEST {
        return say(rt, test, NO_ROOM);
    }
    say(rt, refused.call, word_of(&Err(refused.reason)))
}

// Follows a scripted test, and prints how it ended. Each line must be as said, up to a refusal.
fn say_followed(rt: &HostRuntime, called: &Called) -> bool {
    let (calls, test) = called;
    match follow(rt.alloc(), &test.make, test.lines) {
        Ok(None) => say_whole(rt, calls),
        Ok(Some(line)) => tell_row(rt, line, false),
        Err(refused) => say_refused(rt, test.name, refused),
    }
}

#[test]
fn builders_and_calls_are_whole_or_refused(rt: HostRuntime) {
    for called in CALLED {
        assert!(rt; say_followed(&rt, called));
    }
}
