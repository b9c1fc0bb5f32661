//! Bytes that are taken from the front, and put at the end.
ghost use Rattle.std.specs.Prelude.{◌≡◌, ◌≤◌, ◌-◌, ◌+◌, ◌++◌, ◌∷◌, [], drop, length, OnErr, OnOk, IfOk, vec_capacity, vec_len};
ghost use Rattle.sysv_msg.specs.Body.{message_field};

use pico_base::Memory;
use std::alloc::Global;
use std::marker::Model;

/// What is left of bytes that are taken from the front. Those that were taken stay in front of it until room is made.
#[derive(Drop)]
pub(crate) struct Tail {
    bytes: Vec<u8>,
    // how many were taken
    from: usize,
}

impl Model for Tail {
    ghost use Rattle.std.specs.Prelude.{◌≤◌, ℕ, List, drop, length};

    ghost Value = { List ℕ };

    ghost view = { λ t. drop t.from t.bytes.items };

    ghost invariant = { λ t. t.from ≤ length t.bytes.items };
}

/// Adds a message at the end, for which there is room: its type, the length of its text, and the text.
fn push_reserved(out: &mut Vec<u8>, class: i32, text: &[u8])
    requires short { length text.now ≤ 4096 }
    requires room { vec_len out.old + (8 + length text.now) ≤ vec_capacity out.old }
    ensures { out.new.items ≡ out.old.items ++ message_field (record { class = class; text = text.now }) }
{
    let _ = out.extend_from_slice(&class.to_be_bytes());
    let _ = out.extend_from_slice(&(text.len() as u32).to_be_bytes());
    let _ = out.extend_from_slice(text);
}

impl Tail {
    /// A copy of these bytes, with some room for more.
    pub(crate) fn from_slice(alloc: Global, bytes: &[u8]) -> Result<Tail, Memory>
        ensures { IfOk result (λ tail. tail ≡ bytes.now) }
    {
        let mut copy = Vec::with_capacity(alloc, bytes.len() + bytes.len() / 4 + 64)?;
        copy.extend_from_slice(bytes)?;
        Ok(Tail {
            bytes: copy,
            from: 0,
        })
    }

    /// What the bytes take their memory from.
    pub(crate) fn allocator(&self) -> Global {
        *self.bytes.allocator()
    }

    /// The bytes.
    pub(crate) fn as_slice(&self) -> &[u8]
        ensures { result.now ≡ self.now }
    {
        let (_, left) = self.bytes.as_slice().split_at(self.from);
        left
    }

    /// Takes bytes from the front, so that this many are left.
    pub(crate) fn keep(&mut self, left: usize)
        requires { left ≤ length self.old }
        ensures { self.new ≡ drop (length self.old - left) self.old }
    {
        self.from = self.bytes.len() - left;
    }

    /// Lets the bytes go that were taken, once they are as many as those that are left.
    fn close_up(&mut self)
        ensures { self.new ≡ self.old }
    {
        let left = self.bytes.len() - self.from;
        if self.from < left || self.from == 0 {
            return;
        }
        self.bytes.copy_within(self.from.., 0);
        self.bytes.truncate(left);
        self.from = 0;
    }

    /// Adds a message at the end: its type, the length of its text, and the text. Memory: nothing changes.
    pub(crate) fn push(&mut self, class: i32, text: &[u8]) -> Result<(), Memory>
        requires { length text.now ≤ 4096 }
        ensures pushed { OnOk result
            (self.new ≡ self.old ++ message_field (record { class = class; text = text.now })) }
        ensures err { OnErr result (self.new ≡ self.old) }
    {
        self.close_up();
        self.bytes.reserve(8 + text.len())?;
        push_reserved(&mut self.bytes, class, text);
        Ok(())
    }
}
