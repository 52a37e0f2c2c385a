// The text of a run: the characters given back and then the piece, seen as one.
ghost use Rattle.std.specs.Prelude.{◌≡◌, ◌-◌, ◌≤◌, ◌<◌, length, get_or, take, drop};
ghost use Rattle.meaning.specs.Direct.{over};
ghost use Rattle.session.specs.bridge.Running.{whole, unread};

// The characters given back, and the piece.
#[derive(Clone, Copy, Debug, PartialEq, Eq)]
pub struct Text<'a> {
    pub given: &'a [u16],
    pub piece: &'a [u16],
}

impl<'a> Text<'a> {
    // How many characters it has.
    pub fn len(&self) -> usize
        ensures { result ≡ length (whole self.now) }
    {
        self.given.len() + self.piece.len()
    }

    // "Unread characters come first from those given back, then from the piece": the unread part of those given back if not empty, else of the piece.
    pub fn unread(&self, at: usize) -> &'a [u16]
        requires { at ≤ length (whole self.now) }
        ensures { result.now ≡ unread self.now at }
    {
        if at < self.given.len() {
            return &self.given[at..];
        }
        &self.piece[at - self.given.len()..]
    }

    // Character `i` of the text.
    pub fn character(&self, i: usize) -> u16
        requires { i < length (whole self.now) }
        ensures { result ≡ get_or (whole self.now) i 0 }
    {
        let part = self.unread(i);
        part[0]
    }

    // The text from `from` on and below `to` goes to the first places of the store.
    pub fn gather(&self, from: usize, to: usize, store: &mut [u16])
        requires { (from ≤ to) × (to ≤ length (whole self.now)) × (to - from ≤ length store.old) }
        ensures { store.new ≡ over (take (to - from) (drop from (whole self.now))) store.old }
    {
        for i in 0..to - from {
            store[i] = self.character(from + i);
        }
    }
}
