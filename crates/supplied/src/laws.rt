// The laws of the supplied links, as the promises of functions that do nothing. A function for each link, and no generic one:
// what the values agree by is the link's own, and a generic one could only say again that `Link` asks for a lawful lens.
ghost use Rattle.std.specs.Prelude.{◌≡◌, ℕ, ◌+◌, ◌-◌, ◌*◌, ◌%◌, ◌^◌, ◌<◌};
ghost use Rattle.links.specs.Laws.{Lawful, AgreeBy};
ghost use Rattle.supplied.specs.Memoryless.{same, private, bit, label};
ghost use Rattle.supplied.specs.LowBits.{low};
ghost use Rattle.supplied.specs.Carries.{RoundsDown, carrying};

// Equal values are a lawful link.
pub fn same_is_lawful()
    ensures lawful { Lawful same }
    ensures agrees { AgreeBy same (λ s x y. x ≡ y) }
{}

// Full lots are a lawful link: rounded down, with what is left over as the memory.
pub fn carry_is_lawful()
    ensures lawful { Lawful carrying }
    ensures agrees { AgreeBy carrying (λ c x y. x ≡ c.ratio * y + c.rest) }
    ensures rounds { RoundsDown }
{}

// Labels of eight bits, read from the other end, are a lawful link.
pub fn label_is_lawful()
    ensures lawful { Lawful label }
    ensures agrees { AgreeBy label (λ s x y. (i : ℕ) → i < 8 → bit i y ≡ bit (7 - i) x) }
{}

// The low bits of flags are a lawful link.
pub fn low_is_lawful()
    ensures lawful { Lawful low }
    ensures agrees { AgreeBy low (λ l x y. y ≡ x % 2 ^ l.kept) }
{}

// Hidden values are a lawful link.
pub fn private_is_lawful()
    ensures lawful { Lawful private }
    ensures agrees { AgreeBy private (λ s x y. y ≡ 0) }
{}
