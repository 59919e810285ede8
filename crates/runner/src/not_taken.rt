// Why a processor takes no further task: it has run, the start lies past its last tick, or each level has a task.
#[derive(Clone, Copy, PartialEq, Eq, Debug)]
pub enum NotTaken {
    HasRun,
    LateStart,
    NoLevel,
}
