//! Runs of calls whose steps come in the order of a schedule, with the courses that were worked out
//! by hand. A course is what a run records: which call began, and each step with what it found.
mod tables;

use crate::row_reports::tell_named;
use fastbloom::{Trace, run};
use std::alloc::Global;
use tables::{Course, disturbed, taken, undisturbed};

// Whether a run recorded what a course says.
fn is_of(trace: &Trace, course: &Course) -> bool {
    let records = trace.records() == course.records;
    (trace.start() == course.words) & records & (trace.words() == course.after)
}

// Whether a run of a course's schedule gives its records, and its words in the end.
fn is_taken(alloc: Global, course: &Course) -> bool {
    let words = course.words;
    if words.is_empty() || words.len() >= 1 << 58 || course.num_hashes == 0 {
        return false;
    }
    match run(
        alloc,
        words,
        course.num_hashes,
        course.parties,
        course.schedule,
    ) {
        Ok(trace) => is_of(&trace, course),
        Err(_refusal) => false,
    }
}

// Whether runs take their courses.
fn are_taken(rt: &HostRuntime, courses: &[Course]) -> bool {
    let mut all = true;
    for course in courses {
        all &= tell_named(rt, course.name, is_taken(rt.alloc(), course));
    }
    all
}

#[test]
fn calls_in_the_order_of_a_schedule_take_these_courses(rt: HostRuntime) {
    assert!(rt; are_taken(&rt, disturbed()));
    assert!(rt; are_taken(&rt, undisturbed()));
    assert!(rt; are_taken(&rt, taken()));
}
