// The rules of a kind of file.
ghost use Rattle.std.specs.Prelude.{◌≡◌, ℕ, List};

/// A rule of a kind of file.
pub trait Rule: Copy {
    /// The name of each rule.
    ghost name: { Self → List ℕ };

    /// The name of the rule as the text of a refusal gives it, such as `B3`.
    fn name(self) -> &'static str
        ensures { result.now ≡ name self };
}
