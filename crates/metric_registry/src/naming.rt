//! Which board a registry is of.
ghost use Rattle.std.specs.Prelude.{List, [], Option, None};
ghost use Rattle.registry_state.specs.Journal.{RegistryChange};
ghost use Rattle.atomic_table.specs.Seated.{TableId};

use std::marker::Brand;

/// Which board a registry is of, if one is named, and what was registered and made before the registry got its lock. No code
/// tells it, and it has no bytes: a program that wants to know calls, where it has its board, a function over `B: Named` at
/// [`Brand`], and picks there what `B` names. docs/REGISTRY.md shows how.
pub trait Named {
    ghost board: { Option TableId };

    ghost first: { List RegistryChange };
}

/// No board is named.
pub struct AnyBoard;

impl Named for AnyBoard {
    ghost board = { None };

    ghost first = { [] };
}

// Each call picks what it names.
impl Named for Brand {
    ghost board = { None };

    ghost first = { [] };
}
