//! How a test ends that does not find what it should. A library may not end a process, so these are macros, and the
//! test does so. Only `assert_same` is a function of each crate of tests, since its many calls would all be longer to
//! prove.

/// Asserts that each of these values prints as the text beside it.
#[macro_export]
macro_rules! assert_prints {
    ($rt:expr, $rows:expr) => {
        if let Some(difference) = $crate::misprint($rt.alloc(), $rows) {
            panic!($rt; "{difference}");
        }
    };
}

/// Asserts that each of these variants of each type prints as its name.
#[macro_export]
macro_rules! assert_words {
    ($rt:expr; $($kind:ident: $($variant:ident)+);+) => {
        $($crate::assert_prints!($rt, &[$(($kind::$variant, stringify!($variant))),+]);)+
    };
}

/// Asserts that calls with a refused growth had the right answer, and changed nothing.
#[macro_export]
macro_rules! assert_grown {
    ($rt:expr, $tried:expr) => {
        if let Some(fault) = $tried.fault() {
            panic!($rt; "{fault}");
        }
    };
}

/// Asserts, by the `assert_same` of the crate that calls it, that a call was refused for lack of memory, which is the
/// fault `memory`. Is `Memory`, so that a test of growth can go on with it.
#[macro_export]
macro_rules! assert_memory {
    ($rt:expr, $at:expr, $fault:expr, $memory:expr) => {{
        assert_same($rt, $at, &$fault, &$memory);
        $crate::Memory
    }};
}
