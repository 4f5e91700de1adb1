// The links that a value is made of.
ghost use Rattle.std.specs.Prelude.{◌≡◌, ◌<◌, ◌%◌, ◌^◌};
ghost use Rattle.bfs_values.specs.Links.{link_in};
ghost use Rattle.bfs_values.specs.declared.link.Link.TheVariants.{Number, Fragment, Chain};

/// The value that is a plain number.
#[tactic(auto, unfolding(bfs_values::specs::Links::link_in))]
pub fn number_value(number: u64) -> i64
    requires { number < 2 ^ 62 }
    ensures { link_in result ≡ Number number }
{
    number as i64
}

/// The value that names a fragment of the page that begins at a byte of the stream.
pub fn fragment_value(page: u64, index: u64) -> i64
    requires page { page < 2 ^ 62 }
    requires whole { page % 1024 ≡ 0 }
    requires index { index < 16 }
    ensures { link_in result ≡ Fragment page index }
{
    (13_835_058_055_282_163_712 + page + index).cast_signed()
}

/// The value that names the first page of a chain.
pub fn chain_value(page: u64) -> i64
    requires page { page < 2 ^ 62 }
    requires whole { page % 1024 ≡ 0 }
    ensures { link_in result ≡ Chain page }
{
    (9_223_372_036_854_775_808 + page).cast_signed()
}
