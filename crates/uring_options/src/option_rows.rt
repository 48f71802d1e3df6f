//! The options of the commands of `uring`: which numbers each takes, and its line in a help.

/// An option of a command.
#[derive(Clone, Copy)]
pub(crate) struct OptionRow {
    pub(crate) id: &'static str,
    pub(crate) help: &'static str,
    /// The least and the most number that it takes, or none if it takes no value.
    pub(crate) numbers: Option<(i64, i64)>,
}

pub(crate) const SQ: OptionRow = OptionRow {
    id: "sq",
    help: "Entries of the submission ring, 1 to 4096, rounded up to a power of two [default: 4]",
    numbers: Some((1, 4_096)),
};

pub(crate) const CQ: OptionRow = OptionRow {
    id: "cq",
    help: "Entries of the completion ring, 1 to 8192, rounded up to a power of two and not fewer than the submission ring's [default: twice the submission ring]",
    numbers: Some((1, 8_192)),
};

pub(crate) const FILES: OptionRow = OptionRow {
    id: "files",
    help: "Files, 1 to 64, each empty at first [default: 2]",
    numbers: Some((1, 64)),
};

pub(crate) const START: OptionRow = OptionRow {
    id: "start",
    help: "The word at which both rings begin, any 32 bits [default: 0]",
    numbers: Some((0, 4_294_967_295)),
};

pub(crate) const STOP: OptionRow = OptionRow {
    id: "stop",
    help: "End a submission call after the first entry with a fault that it takes; the rest is left to later calls",
    numbers: None,
};

pub(crate) const LINUX: OptionRow = OptionRow {
    id: "linux",
    help: "Keep requests by Linux's rules, as 6.18 was seen to, where they differ from the manual pages'",
    numbers: None,
};

pub(crate) const ECHO: OptionRow = OptionRow {
    id: "echo",
    help: "Write each step before its answer, as check reads them",
    numbers: None,
};

pub(crate) const STRICT: OptionRow = OptionRow {
    id: "strict",
    help: "End at the first bad line with status 4, and name it on standard error",
    numbers: None,
};

pub(crate) const GRAPH: OptionRow = OptionRow {
    id: "graph",
    help: "Write no answers, but a graph of the requests that are outstanding at the end",
    numbers: None,
};

pub(crate) const GRAPH_AT: OptionRow = OptionRow {
    id: "at",
    help: "Draw the graph of the moment after line N [default: after the last]",
    numbers: Some((0, 4_294_967_295)),
};

pub(crate) const TIMELINE: OptionRow = OptionRow {
    id: "timeline",
    help: "Write no answers, but a row for each request, with the lines at which it moved",
    numbers: None,
};

pub(crate) const PAGE: OptionRow = OptionRow {
    id: "page",
    help: "Write a page of HTML that draws the trace, and nothing else",
    numbers: None,
};

pub(crate) const JSON: OptionRow = OptionRow {
    id: "json",
    help: "Write the data of that page as JSON, and nothing else",
    numbers: None,
};

pub(crate) const ALL: OptionRow = OptionRow {
    id: "all",
    help: "Go on after a wrong line, as though the one answer that was called for had been given",
    numbers: None,
};

pub(crate) const APART: OptionRow = OptionRow {
    id: "apart",
    help: "Let a running request end with any result, and give no data: ended RES",
    numbers: None,
};

pub(crate) const ALLOWED: OptionRow = OptionRow {
    id: "results",
    help: "The same, but with a result that its operation may give",
    numbers: None,
};

pub(crate) const EARLY: OptionRow = OptionRow {
    id: "early-effects",
    help: "Let operations take effect at any moment between issue and finish",
    numbers: None,
};

pub(crate) const MOVES: OptionRow = OptionRow {
    id: "most",
    help: "With --early-effects: give up after N moves [default: never]",
    numbers: Some((1, 4_294_967_295)),
};

pub(crate) const WORKERS: OptionRow = OptionRow {
    id: "workers",
    help: "Workers, 1 to 8, each with a thread and files of its own [default: 2]",
    numbers: Some((1, 8)),
};

pub(crate) const SHARED: OptionRow = OptionRow {
    id: "shared",
    help: "Let application and dispatcher share the words of the rings in place of lanes",
    numbers: None,
};

pub(crate) const FILE: OptionRow = OptionRow {
    id: "file",
    help: "The file of which an image is written, 0 to 63 [default: 0]",
    numbers: Some((0, 63)),
};

pub(crate) const UNIT: OptionRow = OptionRow {
    id: "unit",
    help: "How many bytes a crash leaves by themselves, 1 to 65536 [default: 1]",
    numbers: Some((1, 65_536)),
};

pub(crate) const AT: OptionRow = OptionRow {
    id: "at",
    help: "Let the power fail after line N [default: after the last]",
    numbers: Some((0, 4_294_967_295)),
};

pub(crate) const SEED: OptionRow = OptionRow {
    id: "seed",
    help: "Leave an image by this seed, any 32 bits [default: the least, the safe writes alone]",
    numbers: Some((0, 4_294_967_295)),
};

pub(crate) const COUNT: OptionRow = OptionRow {
    id: "count",
    help: "Write how many images a crash may leave, and nothing else",
    numbers: None,
};

pub(crate) const LIST: OptionRow = OptionRow {
    id: "all",
    help: "Write each image that a crash may leave, once, and how many they are",
    numbers: None,
};

pub(crate) const LISTED: OptionRow = OptionRow {
    id: "most",
    help: "List no more than N images; with more, end with status 3 [default: 1000]",
    numbers: Some((1, 4_294_967_295)),
};

pub(crate) const HOLDS: OptionRow = OptionRow {
    id: "holds",
    help: "Tell whether each crash leaves the bytes HEX at OFFSET, both after --",
    numbers: None,
};

pub(crate) const EACH: OptionRow = OptionRow {
    id: "each",
    help: "Write it after each line in turn, up to that of --at",
    numbers: None,
};

pub(crate) const RESULTS: OptionRow = OptionRow {
    id: "results",
    help: "Sort the completions of each outcome by user data, and say how many orders it has",
    numbers: None,
};

pub(crate) const CONTENTS: OptionRow = OptionRow {
    id: "contents",
    help: "Write the files of each outcome after its completions",
    numbers: None,
};

pub(crate) const POWER: OptionRow = OptionRow {
    id: "crash",
    help: "Write what a power failure may show of the calls, at any moment",
    numbers: None,
};

pub(crate) const MOST: OptionRow = OptionRow {
    id: "most",
    help: "Stop after N paths, and say that these are not known to be all",
    numbers: Some((1, 4_294_967_295)),
};

pub(crate) const HISTORIES: OptionRow = OptionRow {
    id: "most",
    help: "Give up after N histories [default: never]",
    numbers: Some((1, 4_294_967_295)),
};

pub(crate) const NUMBER: OptionRow = OptionRow {
    id: "explain",
    help: "Write a history that comes to the outcome of this line, counted from 1",
    numbers: Some((1, 4_294_967_295)),
};

pub(crate) const NEVER: OptionRow = OptionRow {
    id: "never",
    help: "Tell whether no outcome shows any of the lines after --",
    numbers: None,
};

pub(crate) const ALWAYS: OptionRow = OptionRow {
    id: "always",
    help: "Tell whether each outcome shows some of the lines after --",
    numbers: None,
};
