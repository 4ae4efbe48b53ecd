// What people are told of a ring.
use crate::answers::rows::{IDENTITY, known, lead, nodes_in, ring_of};
use ring_page::{group_page, push_escaped, ring_page};
use ring_records::NodeNo;
use ring_status::Condition;
use std::process::Abort;
use std::test::Fail;

#[test]
fn texts_are_escaped(rt: HostRuntime) -> Result<(), Fail> {
    for (text, wanted) in [
        ("", ""),
        ("on host-7, disk 2/3", "on host-7, disk 2/3"),
        (
            "<script>alert(\"a\" + 'b')</script>",
            "&lt;script&gt;alert(&quot;a&quot; + &#39;b&#39;)&lt;/script&gt;",
        ),
        ("a&amp;b", "a&amp;amp;b"),
        ("\u{e4}\u{20ac}\u{1f600}<", "\u{e4}\u{20ac}\u{1f600}&lt;"),
    ] {
        let mut out = String::new(rt.alloc());
        push_escaped(&mut out, text)?;
        assert!(rt; out.as_str() == wanted);
    }
    Ok(())
}

/// The page has each of these parts.
fn has_parts(rt: &impl Abort, page: &str, parts: &[&str]) {
    for part in parts {
        assert!(rt; page.contains(*part));
    }
}

#[test]
fn a_ring(rt: HostRuntime) -> Result<(), Fail> {
    let nodes = nodes_in(
        &rt,
        rt.alloc(),
        &[Condition::Well, Condition::Limit, Condition::Hangs],
    )?;
    let doorless = [NodeNo::first()];
    let ring = ring_of(IDENTITY, "a<b", "--always", &nodes, &doorless);
    let leads = [lead(&rt, "blue", 7, 3, 2), lead(&rt, "red", 5, 10, 1)];
    // a day, an hour, a minute and a second later
    let page = ring_page(rt.alloc(), &ring, 1_700_090_061, &leads, true)?;
    has_parts(
        &rt,
        &page,
        &[
            "<!DOCTYPE html>\n<html lang=\"en\">\n",
            "<meta http-equiv=\"refresh\" content=\"5\">\n",
            "<title>a&lt;b</title>",
            "<h1>a&lt;b</h1>\n<p>ringd 0.1.0 for 1 d 1 h 1 min. It cannot elect.</p>\n",
            "<pre>node 2 limit\nnode 3 hangs\nnode 1 has no door free\nhelp: see the disk\n</pre>\n",
            "<svg ",
            "rotate(0) translate(0 -220) rotate(-0)\"><circle class=\"well\"",
            "pathLength=\"65536\" stroke-dasharray=\"1234 65536\"",
            "<text>1</text><text y=\"12\">well</text><text y=\"38\">9 waiting</text>\n<text y=\"49\">3 of 4 doors \
             busy</text><text y=\"60\">checkpoint 21 s ago</text><title>leads: red</title></g>\n",
            "leads: blue</title></g>\n",
            "leads:</title></g>\n",
            "rotate(120) translate(0 -220) rotate(-120)\"><circle class=\"limit\"",
            "rotate(240) translate(0 -220) rotate(-240)\"><circle class=\"hangs\"",
            "</svg>\n<table>\n",
            "<tr class=\"well\"><th>1</th><td>7101</td><td>well</td>\n<td>30</td><td>29</td>\n<td><meter max=\"65536\" \
             value=\"1234\"></meter> 1234 of 65536</td>\n<td>9</td><td>3 of 4</td><td>1017</td>\n<td>21 s ago</td><td>12 s</td></tr>\n",
            "<tr class=\"limit\"><th>2</th><td>7102</td><td>limit</td>\n",
            "<tr class=\"hangs\"><th>3</th><td>7103</td><td>hangs</td>\n",
            "</table>\n<h2>Leaders</h2>\n",
            "<a href=\"/groups/blue\">blue</a></th><td>7</td><td>2</td><td>3</td></tr>\n",
            "<a href=\"/groups/red\">red</a></th><td>5</td><td>1</td><td>10</td></tr>\n</table>\n<p>There are more: see \
             /leaders.</p>\n</body>\n</html>\n",
        ],
    );
    assert!(rt; !page.as_str().contains("<script"));
    let page = ring_page(rt.alloc(), &ring, 1_600_000_000, &[], false)?;
    has_parts(
        &rt,
        &page,
        &[
            "for 0 d 0 h 0 min. ",
            "<th>bid</th></tr>\n</table>\n</body>",
        ],
    );
    Ok(())
}

#[test]
fn a_group(rt: HostRuntime) -> Result<(), Fail> {
    let red = lead(&rt, "red", 5, 10, 1);
    let page = group_page(rt.alloc(), &red, &known(true, false, "<b>&"))?;
    has_parts(
        &rt,
        &page,
        &[
            "<title>red</title>",
            "<h1>red</h1>\n<table>\n<tr><th>term</th><td>5</td></tr>\n<tr><th>leader</th><td>node 1, bid 10</td></tr>\n",
            "<tr><th>present</th><td>yes</td></tr>\n<tr><th>resigned</th><td>no</td></tr>\n",
            "<tr><th>text</th><td>&lt;b&gt;&amp;</td></tr>\n</table>\n<p><a href=\"/\">The ring</a></p>\n</body>\n</html>\n",
        ],
    );
    let page = group_page(rt.alloc(), &red, &known(false, true, ""))?;
    has_parts(
        &rt,
        &page,
        &[
            "present</th><td>no<",
            "resigned</th><td>yes<",
            "text</th><td></td>",
        ],
    );
    Ok(())
}
