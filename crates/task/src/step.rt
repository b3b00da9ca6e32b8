// One step of a task: the task, what is lent to it, and the time of the step.
use crate::conduct::Places;
use crate::task::Task;

#[derive(Drop)]
pub struct Step<'a, H, T> {
    pub task: &'a mut Task,
    pub host: &'a mut H,
    pub terminal: &'a mut T,
    // Calls are recorded on it.
    pub sheet: &'a mut Places,
    // The places of the sheet that are written: a count, and no iterator over the rest, since it is answered in the end.
    pub used: usize,
    pub time: u64,
}
