ghost use Rattle.std.specs.Prelude.{◌≡◌, ◌+◌, ◌%◌, ◌<◌, ℕ, IsTrue};
ghost use Rattle.daq_io.specs.Told.{AheadTold};

/// A clock.
pub trait Clock {
    /// Whether the clock tells its readings, and those that lie ahead.
    ghost told: { Self → AheadTold };

    /// Seconds since 1970, modulo 2^32.
    fn now(&mut self) -> u32
        ensures tells { (told self.new).tells ≡ (told self.old).tells }
        ensures value { IsTrue (told self.old).tells → result ≡ (told self.old).ahead 0 }
        ensures later { IsTrue (told self.old).tells → (n : ℕ) → (told self.new).ahead n
            ≡ (told self.old).ahead (n + 1) };
}

/// The choice of the member that has the first turn of a round.
pub trait Pick {
    /// Whether the choices are told, and the numbers that lie ahead. Each is taken modulo the members.
    ghost told: { Self → AheadTold };

    /// The number of a member, of which there are so many.
    fn first(&mut self, members: u32) -> u32
        requires { 0 < members }
        ensures member { result < members }
        ensures tells { (told self.new).tells ≡ (told self.old).tells }
        ensures value { IsTrue (told self.old).tells → result ≡ (told self.old).ahead 0 % members }
        ensures later { IsTrue (told self.old).tells → (n : ℕ) → (told self.new).ahead n
            ≡ (told self.old).ahead (n + 1) };
}

/// A moment in a member's turn.
#[derive(Clone, Copy, Debug, PartialEq, Eq)]
pub enum Point {
    BeforeSend,
    AfterSend,
    BeforeReceive,
    AfterReceive,
}

/// A gate that each member passes on its way. The program's lets everyone through; a test can hold a member there.
pub trait Gate {
    /// The member of this number is at this point.
    fn at(&self, member: u32, point: Point);
}
