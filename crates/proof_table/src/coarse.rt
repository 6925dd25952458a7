//! The lines of coarse letters, and the letters that triples name.

use crate::rows::{put, put_line, put_nothing, put_number};
use letter_acts::Icfg;
use proof_form::{Annotation, read_safe};
use proof_names::coarse_lines::{CoarseFault, coarse_letters, compared};

/// Prints the coarse letters that triples name.
fn show_letters(rt: &HostRuntime, graph: &Icfg, annotation: &Annotation) {
    put(rt, "letters");
    match coarse_letters(rt.alloc(), graph, annotation) {
        Ok(letters) => {
            for letter in &letters {
                put_number(rt, " ", u64::from(*letter), "");
            }
        }
        Err(_) => put_nothing(rt),
    }
}

/// Prints what is wrong with the lines.
fn show_fault(rt: &HostRuntime, fault: &CoarseFault) {
    match fault {
        CoarseFault::Line(place) => put_number(rt, "; wrong line ", *place as u64, "\n"),
        CoarseFault::Triple(place) => put_number(rt, "; no line for triple ", *place as u64, "\n"),
        CoarseFault::Memory => put_nothing(rt),
    }
}

/// Prints the coarse letters that the triples of an annotation name, and whether its lines are those of these.
pub(crate) fn show_coarse(rt: &HostRuntime, graph: &Icfg, text: &str) {
    match &read_safe(rt.alloc(), text.as_bytes()) {
        Ok((_rounds, coarse, annotation)) => {
            show_letters(rt, graph, annotation);
            match &compared(rt.alloc(), graph, coarse, annotation) {
                Ok(()) => put_line(rt, "; right"),
                Err(fault) => show_fault(rt, fault),
            }
        }
        Err(_) => put_nothing(rt),
    }
}
