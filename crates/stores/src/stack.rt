// A flat stack over a lent table: the first `len` elements are in use, oldest first.
ghost use Rattle.std.specs.Prelude.{◌≡◌, ◌+◌, ◌-◌, ◌<◌, ◌≤◌, [], length, ◌==◌, slice_index_or, slice_set};
ghost use Rattle.stores.specs.Stacks.{told, put_answer, put_after, take_answer, take_after, taken};

use refusal::faults::StoreFault;

#[derive(Drop)]
pub struct Stack<'a, T: Copy> {
    table: &'a mut [T],
    len: usize,
    ghost within: { len ≤ length table.now },
}

// A number of elements, as it is told.
fn as_told(n: usize) -> u32
    ensures { result ≡ told n }
{
    n.min(65535) as u32
}

impl<'a, T: Copy> Stack<'a, T> {
    ghost use Rattle.stores.specs.Tables.{contents, table_after_put};

    // An empty stack; its capacity is the table's length.
    pub fn new(table: &'a mut [T]) -> Stack<'a, T>
        ensures holds_nothing { contents result ≡ [] }
        ensures keeps_the_table { result.table.now ≡ table.old }
        ensures is_lent_that_table { result.table.ghost_name ≡ table.entry.ghost_name }
    {
        Stack { table, len: 0 }
    }

    // Appends `element`, in the place after the newest.
    pub fn put(&mut self, element: T) -> Result<(), StoreFault>
        ensures answers_as_the_list_does { result ≡ put_answer (contents self.old) (length self.old.table.now) }
        ensures holds_the_list_after { contents self.new ≡ put_after (contents self.old) (length self.old.table.now) element }
        ensures writes_the_next_place_alone { self.new.table.now ≡ table_after_put self.old element }
        ensures is_lent_that_table { self.new.table.ghost_name ≡ self.old.table.ghost_name }
    {
        if self.len == self.table.len() {
            return Err(StoreFault::Full(self.held()));
        }
        self.table[self.len] = element;
        self.len += 1;
        Ok(())
    }

    // Moves the newest into `to`.
    pub fn take(&mut self, to: &mut T) -> Result<(), StoreFault>
        ensures answers_as_the_list_does { result ≡ take_answer (contents self.old) }
        ensures holds_the_list_after { contents self.new ≡ take_after (contents self.old) }
        ensures gives_the_newest { to.new ≡ taken (contents self.old) to.old }
        ensures writes_nothing { self.new.table.now ≡ self.old.table.now }
        ensures is_lent_that_table { self.new.table.ghost_name ≡ self.old.table.ghost_name }
    {
        if self.len == 0 {
            return Err(StoreFault::Empty(self.held()));
        }
        self.len -= 1;
        *to = self.table[self.len];
        Ok(())
    }

    // How many elements there are, at most 65,535.
    pub fn held(&self) -> u32
        ensures answers_as_the_list_does { result ≡ told (length (contents self.now)) }
    {
        as_told(self.len)
    }

    // How many more there may be, at most 65,535.
    pub fn spare(&self) -> u32
        ensures answers_as_the_list_does { result ≡ told (length self.now.table.now - length (contents self.now)) }
    {
        as_told(self.table.len() - self.len)
    }
}
