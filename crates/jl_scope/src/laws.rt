ghost use Rattle.jl_scope.specs.Laws.{BindBinds, FirstComesFirst};

/// The first of several things that are wrong is one of them, and none of them comes before it.
pub fn first_comes_first()
    ensures { FirstComesFirst }
{}

/// A left-out name is bound exactly where it was bound or is one of the names that are bound as well.
pub fn bind_binds()
    ensures { BindBinds }
{}
