//! Hashing under a key.

use std::hash::{BuildHasher, DefaultHasher, FoldHasher, Hasher};

/// A key for hashing, which a text makes: each change of the text changes the key, so no text can choose values that collide under its own key.
#[derive(Clone, Copy)]
pub struct Key {
    // a hasher to which the key was written
    begun: DefaultHasher,
}

/// A key under which hashing costs less than under the one it was made from, for values of few numbers each.
#[derive(Clone, Copy)]
pub struct QuickKey {
    // a hasher to which the key was written
    begun: FoldHasher,
}

impl Key {
    /// The key that a text makes.
    pub fn of(text: &[u8]) -> Key {
        let mut first = DefaultHasher::new();
        first.write(text);
        let mut second = first;
        first.write(&[0]);
        second.write(&[1]);
        let mut begun = DefaultHasher::new();
        begun.write_u64(first.finish());
        begun.write_u64(second.finish());
        Key { begun }
    }

    /// The key for values of few numbers each.
    pub fn quick(&self) -> QuickKey {
        let mut begun = FoldHasher::default();
        begun.write_u64(self.begun.finish());
        QuickKey { begun }
    }
}

// Each hasher begins with the key.
impl BuildHasher for Key {
    type Hasher = DefaultHasher;

    ghost build_hasher = { λ k. k.begun };

    fn build_hasher(&self) -> DefaultHasher {
        self.begun
    }
}

// The same.
impl BuildHasher for QuickKey {
    type Hasher = FoldHasher;

    ghost build_hasher = { λ k. k.begun };

    fn build_hasher(&self) -> FoldHasher {
        self.begun
    }
}
