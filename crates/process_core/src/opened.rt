use kernel_core::Inputs;

/// What a process is opened with: its kernel's inputs and the room that the kernel then has. No value of it is made:
/// it stands in contracts alone, where it tells processes apart.
#[derive(Drop)]
pub struct Opened {
    pub inputs: Inputs,
    pub room: u32,
}
