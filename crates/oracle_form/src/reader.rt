// A text as far as it was read. What is looked for and not there is `None`.
ghost use Rattle.std.specs.Prelude.{◌≡◌, ◌==◌, ◌≤◌, ◌↔◌, ◌∷◌, ◌++◌, length, Some, IfSome, OnSome, IsNone, IsSome, slice_get};

#[derive(Clone, Copy)]
pub struct Reader<'a> {
    pub rest: &'a [u8],
}

impl<'a> Reader<'a> {
    pub fn new(text: &'a [u8]) -> Self
        ensures { result.rest.now ≡ text.now }
    {
        Self { rest: text }
    }

    pub fn is_at_end(&self) -> bool
        ensures { result ≡ (length self.now.rest.now == 0) }
    {
        self.rest.is_empty()
    }

    pub fn peek(&self) -> Option<u8>
        ensures { result ≡ slice_get self.now.rest.now 0 }
    {
        self.rest.first().copied()
    }

    // Takes the next byte.
    pub fn next(&mut self) -> Option<u8>
        ensures { IfSome result (λ b. self.old.rest.now ≡ b ∷ self.new.rest.now) }
    {
        let (&first, rest) = self.rest.split_first()?;
        self.rest = rest;
        Some(first)
    }

    // Takes so many bytes.
    pub fn take(&mut self, n: usize) -> Option<&'a [u8]>
        ensures some { IfSome result (λ taken. self.old.rest.now ≡ taken.now ++ self.new.rest.now) }
        ensures len { IfSome result (λ taken. length taken.now ≡ n) }
    {
        let (taken, rest) = self.rest.split_at_checked(n)?;
        self.rest = rest;
        Some(taken)
    }

    // Takes the bytes before a mark, or all where it does not follow.
    pub fn until(&mut self, mark: u8) -> &'a [u8]
        ensures { self.old.rest.now ≡ result.now ++ self.new.rest.now }
    {
        let n = self.rest.iter().take_while(|&&b| b != mark).count();
        let (taken, rest) = self.rest.split_at(n);
        self.rest = rest;
        taken
    }

    // Takes a byte that has to be there, and nothing where it is not.
    pub fn pass(&mut self, mark: u8) -> Option<()>
        ensures there { IsSome result ↔ (slice_get self.old.rest.now 0 ≡ Some mark) }
        ensures some { OnSome result (self.old.rest.now ≡ mark ∷ self.new.rest.now) }
        ensures none { IsNone result → self.new.rest.now ≡ self.old.rest.now }
    {
        match self.rest.split_first() {
            Some((&first, rest)) if first == mark => {
                self.rest = rest;
                Some(())
            }
            _ => None,
        }
    }

    // The same, unless nothing follows.
    pub fn pass_or_end(&mut self, mark: u8) -> Option<()>
        ensures { OnSome result (length self.new.rest.now ≤ length self.old.rest.now) }
    {
        if self.is_at_end() {
            return Some(());
        }
        self.pass(mark)
    }
}
