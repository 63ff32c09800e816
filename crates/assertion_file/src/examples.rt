//! Worked examples: the texts of small files, computed by the checker.
ghost use Rattle.std.specs.Prelude.{◌≡◌, ◌∷◌, ◌++◌, [], codes};
ghost use Rattle.assertion_file.specs.Examples as examples;
ghost use Rattle.assertion_file.specs.Text.{assertion_file_text, line_feed};

/// Three candidates and three assertions.
pub fn three_candidates()
    ensures { assertion_file_text examples.three_candidates ≡ codes "{\"assertions\":[{\"kind\":\"NEB\",\"loser\":\"3\",\"margin\":1,\"winner\":\"2\"},{\"kind\":\"NEN\",\"loser\":\"1\",\"margin\":2,\"rest\":[\"1\",\"2\"],\"winner\":\"2\"},{\"kind\":\"NEN\",\"loser\":\"1\",\"margin\":2,\"rest\":[\"1\",\"3\"],\"winner\":\"3\"}],\"candidates\":[\"1\",\"2\",\"3\"],\"contest\":\"1\",\"margin\":1,\"order\":[\"2\",\"1\",\"3\"],\"records\":12,\"version\":1,\"winner\":\"2\"}" ++ line_feed ∷ [] }
{}

/// Two candidates. A backslash in an id is printed as two backslashes.
pub fn two_candidates()
    ensures { assertion_file_text examples.two_candidates ≡ codes "{\"assertions\":[{\"kind\":\"NEB\",\"loser\":\"B\",\"margin\":1,\"winner\":\"A\\\\1\"}],\"candidates\":[\"A\\\\1\",\"B\"],\"contest\":\"7\",\"margin\":1,\"order\":[\"A\\\\1\",\"B\"],\"records\":5,\"version\":1,\"winner\":\"A\\\\1\"}" ++ line_feed ∷ [] }
{}

/// A plan is printed with the members of version 2.
pub fn planned()
    ensures { assertion_file_text examples.planned ≡ codes "{\"assertions\":[{\"draws\":5,\"kind\":\"NEB\",\"loser\":\"2\",\"margin\":5,\"winner\":\"1\"}],\"candidates\":[\"1\",\"2\"],\"cards\":5,\"contest\":\"1\",\"gamma\":100,\"limit\":50000,\"margin\":5,\"order\":[\"1\",\"2\"],\"records\":5,\"version\":2,\"winner\":\"1\"}" ++ line_feed ∷ [] }
{}

/// A full count is printed as null.
pub fn full_count()
    ensures { assertion_file_text examples.full_count ≡ codes "{\"assertions\":[{\"draws\":null,\"kind\":\"NEB\",\"loser\":\"2\",\"margin\":1,\"winner\":\"1\"}],\"candidates\":[\"1\",\"2\"],\"cards\":1000,\"contest\":\"1\",\"gamma\":100,\"limit\":50000,\"margin\":1,\"order\":[\"1\",\"2\"],\"records\":1,\"version\":2,\"winner\":\"1\"}" ++ line_feed ∷ [] }
{}

/// A file of version 3 has no order.
pub fn covered()
    ensures { assertion_file_text examples.covered ≡ codes "{\"assertions\":[{\"kind\":\"NEB\",\"loser\":\"3\",\"margin\":1,\"winner\":\"2\"},{\"kind\":\"NEN\",\"loser\":\"1\",\"margin\":2,\"rest\":[\"1\",\"2\"],\"winner\":\"2\"},{\"kind\":\"NEN\",\"loser\":\"1\",\"margin\":2,\"rest\":[\"1\",\"3\"],\"winner\":\"3\"}],\"candidates\":[\"1\",\"2\",\"3\"],\"contest\":\"1\",\"margin\":1,\"records\":12,\"version\":3,\"winner\":\"2\"}" ++ line_feed ∷ [] }
{}

/// It may have a plan.
pub fn covered_and_planned()
    ensures { assertion_file_text examples.covered_and_planned ≡ codes "{\"assertions\":[{\"draws\":5,\"kind\":\"NEB\",\"loser\":\"2\",\"margin\":5,\"winner\":\"1\"}],\"candidates\":[\"1\",\"2\"],\"cards\":5,\"contest\":\"1\",\"gamma\":100,\"limit\":50000,\"margin\":5,\"records\":5,\"version\":3,\"winner\":\"1\"}" ++ line_feed ∷ [] }
{}
