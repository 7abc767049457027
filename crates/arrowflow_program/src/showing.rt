//! The command `show`: the rows of a stream.

ghost use Rattle.std.specs.Prelude.{◌≡◌};

use crate::calls::{JsonLines, open_ends};
use crate::host::Host;
use crate::reading::{Named, print_objects};
use crate::{
    Bounds, FAILED, named_or_standard, no_json_bounds, out_of_memory, report, report_ended,
};
use arrowflow_line::ShowOptions;
use arrowflow_text::{Layout, Selection};
use std::io;

/// Prints the rows of the stream in the file with this name, or on standard input.
pub(crate) fn show_file<R: Host>(
    rt: &R,
    name: &Option<String>,
    options: &ShowOptions,
    bounds: Bounds<'_>,
) -> u8 {
    let name = match named_or_standard(rt, name.as_ref().map(|name| name.as_str())) {
        Ok(name) => name,
        Err(status) => return status,
    };
    if !options.json {
        return print_rows(rt, name, options, bounds);
    }
    if is_partial(options) {
        let _ = eprintln!(rt;
            "--json prints all rows and columns: --columns, --rows and the like do not go with it"
        );
        return FAILED;
    }
    if bounds.are_some() {
        return no_json_bounds(rt);
    }
    let named = Named {
        name,
        is_labelled: false,
        json: true,
    };
    print_objects(rt, "show", named, JsonLines::Rows, bounds.limits)
}

/// Prints the requested rows of the stream in the file with this name.
fn print_rows<R: Host>(rt: &R, name: &str, options: &ShowOptions, bounds: Bounds<'_>) -> u8 {
    let asked = options
        .columns
        .as_ref()
        .map_or(&[] as &[String], |columns| columns);
    let Ok(names) = asked
        .iter()
        .map(|column| column.as_str())
        .collect::<Vec<&str>>(rt.alloc())
    else {
        return out_of_memory(rt);
    };
    let layout = Layout {
        columns: options.columns.as_ref().map(|_| names.as_slice()),
        null: options.null.as_ref().map(|null| null.as_str()),
        numbers: !options.no_batch,
    };
    let selection = Selection {
        layout,
        batch: options.batch,
        skip: options.skip.unwrap_or(0),
        rows: options.rows,
    };
    let ends = match open_ends(rt, "show", name, io::writer(rt)) {
        Ok(ends) => ends,
        Err(fault) => return report(rt, &fault, name, "-"),
    };
    let (input, ended) = ends.show(rt.alloc(), &selection, bounds.limits, bounds.whole);
    input.clear();
    match ended {
        Ok(ended) => report_ended(rt, ended, None, (name, "-")),
        Err(place) => no_column(rt, names.get(place)),
    }
}

/// Whether an option other than that of JSON is given.
fn is_partial(options: &ShowOptions) -> bool {
    options.columns.is_some()
        || options.batch.is_some()
        || options.skip.is_some()
        || options.rows.is_some()
        || options.null.is_some()
        || options.no_batch
}

/// Reports a column that the schema lacks.
fn no_column<R: Eprint>(rt: &R, name: Option<&&str>) -> u8
    ensures { result ≡ FAILED }
{
    let name = name.copied().unwrap_or("");
    let _ = eprintln!(rt; "no column {name}");
    FAILED
}
