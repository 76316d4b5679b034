// The text of a view of a table: no file is read or written here.
#![tactic(auto)]

ghost use Rattle.std.specs.Prelude.{◌≡◌};
ghost use Rattle.text.specs.Texts.{Added};
ghost use Rattle.command_view.specs.Viewing.{view_text};

use command_arguments::View;
use table::Table;
use text::Writer;
use view_draw::write_draw;
use view_show::write_show;

// The text of a view.
pub fn write_view(to: &mut Writer, v: View, t: &Table)
    ensures lent { to.new.out.ghost_name ≡ to.old.out.ghost_name }
    ensures written { Added (view_text v t.now) to.old.at to.old.out.now to.new.out.now to.new.at }
{
    match v {
        View::Check => to.put(b"accepted\n"),
        View::Show => write_show(to, t),
        View::Draw => write_draw(to, t),
    }
}

// The text of a view at the start; the answer is the place after it.
pub fn put_view(out: &mut [u8], v: View, t: Table) -> usize
    ensures written { Added (view_text v t) 0 out.old out.new result }
{
    let mut writer = Writer::new(out, 0);
    write_view(&mut writer, v, &t);
    writer.at
}
