// A file in memory.
ghost use Rattle.std.specs.Prelude.{◌≡◌, ◌≤◌, length, vec_capacity, IfOk, IsTrue};

use xd_edge::{Blob, OutOfMemory, Text};

/// A file in memory: its name, its bytes, and how many bytes can be written to it.
#[derive(Drop)]
pub struct MemFile {
    pub name: Text,
    pub bytes: Vec<u8>,
    pub room: usize,
    ghost roomy: { room ≤ vec_capacity bytes },
}

impl MemFile {
    ghost use Rattle.xd_memory.specs.MemFiles.{file_of};

    // The file, with memory for as many bytes as there is room for.
    pub(crate) fn with_room(name: Text, bytes: Blob, room: u32) -> Result<MemFile, OutOfMemory>
        ensures { IfOk result (λ f. file_of f ≡ (name, bytes, room)) }
    {
        let room = room as usize;
        let mut bytes = bytes.bytes;
        bytes.reserve(room.saturating_sub(bytes.len()))?;
        Ok(MemFile { name, bytes, room })
    }

    // Other bytes in the place of those that it has, where there is room for them.
    pub(crate) fn write(&mut self, bytes: &[u8]) -> bool
        ensures written { IsTrue result → self.new.bytes.items ≡ bytes.now }
        ensures room { length bytes.now ≤ self.old.room → IsTrue result }
        ensures kept { (self.new.name ≡ self.old.name) × (self.new.room ≡ self.old.room) }
    {
        if bytes.len() > self.room {
            return false;
        }
        self.bytes.clear();
        self.bytes.extend_from_slice(bytes).is_ok()
    }
}
