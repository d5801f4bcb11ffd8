// Stack frames, and when they stood.

// A frame stands from the clock value `start` on; an `end` of 4,294,967,295 means that there is none yet.
// Any three values make a range: a start of 0 means Global, whatever the end and the flag are.
#[derive(Clone, Copy, Debug, PartialEq, Eq)]
pub struct TimeRange {
    pub start: u32,
    pub end: u32,
    pub leaked: bool,
}

#[derive(Clone, Copy, Debug, PartialEq, Eq)]
pub enum TimeRangeStatus {
    Global,
    Active,
    Leaked,
    Ended,
}

// `from_cdcl` is the mark of a frame that belongs to the search for certain.
#[derive(Clone, Copy, Debug, PartialEq, Eq)]
pub struct StackFrame {
    pub from_cdcl: bool,
    pub active: TimeRange,
}
