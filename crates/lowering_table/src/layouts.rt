//! Where the labels of programs lead, and the numbers of their places and frames.

use crate::graphs::{show_column, show_frame};
use crate::printing::{
    end_line, show_count, show_line, show_no_memory, show_number, show_numbers, show_text,
};
use boogie_tree::{Ty, VarInfo};
use icfg_lower::label_places::{before_last_labels, labels_of};
use icfg_lower::program_layout::{Layout, Marks, has_ended, lay_out};
use letter_acts::Frame;
use typed_tree::TProc;
use typed_tree::typing_rules::Typed;

fn show_found(rt: &HostRuntime, number: u32, labels: &[u32]) {
    show_number(rt, "labels of ", number);
    show_text(rt, ":");
    show_numbers(rt, labels);
    end_line(rt);
}

fn show_labels_of(rt: &HostRuntime, layout: &Layout<'_>, number: u32) {
    match labels_of(rt.alloc(), layout, number) {
        Ok(labels) => show_found(rt, number, &labels),
        Err(_) => show_no_memory(rt),
    }
}

fn show_end_of(rt: &HostRuntime, before: usize, has_ended: bool) {
    show_count(rt, "before the last labels: ", before);
    show_text(rt, ", has ended: ");
    show_line(rt, if has_ended { "true" } else { "false" });
}

/// How many statements stand before the last labels, and whether there are none.
fn show_end(rt: &HostRuntime, procedure: &TProc) {
    if let Some(statements) = &procedure.body {
        show_end_of(rt, before_last_labels(statements), has_ended(statements));
    }
}

fn show_labels_in(rt: &HostRuntime, layout: &Layout<'_>) {
    let mut number = 0u32;
    for procedure in layout.program().procs() {
        show_labels_of(rt, layout, number);
        show_end(rt, procedure);
        number = number.saturating_add(1);
    }
    show_labels_of(rt, layout, number)
}

/// Where the labels of each procedure lead, and those of a number that is past all.
pub(crate) fn show_labels(rt: &HostRuntime, program: &Typed) {
    match lay_out(rt.alloc(), program) {
        Ok(layout) => show_labels_in(rt, &layout),
        Err(_) => show_no_memory(rt),
    }
}

fn show_places(rt: &HostRuntime, marks: &Marks) {
    show_number(rt, " first ", marks.first);
    show_number(rt, " entry ", marks.entry);
    show_number(rt, " body ", marks.body);
    show_number(rt, " behind ", marks.behind);
    show_number(rt, " exit ", marks.exit);
    show_number(rt, " returns ", marks.returns);
    show_number(rt, " end ", marks.end);
    show_number(rt, " last ", marks.last);
    end_line(rt)
}

fn show_marks(rt: &HostRuntime, number: u32, marks: &Option<Marks>) {
    show_number(rt, "marks of ", number);
    show_text(rt, ":");
    match marks {
        Some(marks) => show_places(rt, marks),
        None => show_line(rt, " none"),
    }
}

fn show_width(rt: &HostRuntime, number: u32, frame: Option<&Frame>) {
    show_number(rt, "frame of ", number);
    match frame {
        Some(frame) => {
            show_count(rt, ": ", frame.columns.len());
            show_line(rt, " columns")
        }
        None => show_line(rt, ": none"),
    }
}

fn show_numbers_of(rt: &HostRuntime, layout: &Layout<'_>) {
    show_number(rt, "start conditions ", layout.start_conditions());
    show_number(rt, " places ", layout.places());
    show_number(rt, " before locals ", layout.before_locals());
    show_count(rt, " procedures ", layout.program().procs().len());
    end_line(rt)
}

fn show_procedure(rt: &HostRuntime, layout: &Layout<'_>, number: u32) {
    show_marks(rt, number, &layout.marks(number));
    show_width(rt, number, layout.frame(number))
}

/// Of each procedure, and of a number that is past all, where its numbers begin and how wide its frame is.
fn show_layout_of(rt: &HostRuntime, layout: &Layout<'_>) {
    show_numbers_of(rt, layout);
    let mut number = 0u32;
    for _procedure in layout.program().procs() {
        show_procedure(rt, layout, number);
        number = number.saturating_add(1);
    }
    show_procedure(rt, layout, number)
}

fn show_layout_whole(rt: &HostRuntime, layout: Layout<'_>) {
    show_layout_of(rt, &layout);
    for frame in &layout.into_frames() {
        show_frame(rt, frame);
    }
}

/// The numbers of the places of a program, and its frames.
pub(crate) fn show_layout(rt: &HostRuntime, program: &Typed) {
    match lay_out(rt.alloc(), program) {
        Ok(layout) => show_layout_whole(rt, layout),
        Err(_) => show_no_memory(rt),
    }
}

fn show_info(rt: &HostRuntime, info: &VarInfo) {
    let ty = match info.ty {
        Ty::Int => " int ",
        Ty::Bool => " bool ",
    };
    show_text(rt, ty);
    if info.constant {
        show_text(rt, "constant ");
    }
    show_text(rt, str::from_utf8(info.name.bytes()).unwrap_or("?"));
    show_text(rt, ";")
}

fn show_columns(rt: &HostRuntime, frame: &Frame) {
    show_text(rt, "frame:");
    for (column, info) in &frame.columns {
        show_column(rt, *column);
        show_info(rt, info);
    }
    end_line(rt)
}

fn show_copy(rt: &HostRuntime, frame: &Frame) {
    match frame.copy() {
        Ok(copy) => show_columns(rt, &copy),
        Err(_) => show_no_memory(rt),
    }
}

fn show_copies(rt: &HostRuntime, frames: &[Frame]) {
    for frame in frames {
        show_copy(rt, frame);
    }
}

/// A copy of each frame of a program.
pub(crate) fn show_frames(rt: &HostRuntime, program: &Typed) {
    match lay_out(rt.alloc(), program) {
        Ok(layout) => show_copies(rt, &layout.into_frames()),
        Err(_) => show_no_memory(rt),
    }
}
