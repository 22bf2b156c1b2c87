//! The time of day, which lies outside the program.
ghost use Rattle.std.specs.Prelude.{◌≡◌, ℤ, Option, IfSome};
ghost use Rattle.cal_base.specs.World.Outside.{IsMoment};

/// It gives whole seconds since 1970-01-01T00:00:00Z, leap seconds not counted.
pub trait Clock {
    /// The moment that it gives, where it tells one.
    ghost moment: { Self → Option ℤ };

    /// The moment now, from 0 to 253402300799, which is 9999-12-31T23:59:59Z. It cannot fail.
    fn now(&mut self) -> i64
        ensures range { IsMoment result }
        ensures told { IfSome (moment self.old) (λ m. result ≡ m) }
        ensures stays { moment self.new ≡ moment self.old };
}
