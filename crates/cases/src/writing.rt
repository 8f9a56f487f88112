// Printing texts of the library.
use answers::printed::{Ending, Printed};

// The text as it is, if the run ends as it should: turned away just where the text is a refusal. Else `differs`.
pub fn print_printed(rt: &HostRuntime, printed: Printed) -> anyhow::Result<()> {
    let refused = printed.text.as_str().starts_with("refused ");
    if refused == matches!(printed.ending, Ending::TurnedAway) {
        rt.print(printed.text)?;
    } else {
        println!(rt; "differs: the run ends otherwise than the text says")?;
    }
    Ok(())
}
