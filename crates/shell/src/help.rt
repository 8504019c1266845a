//! What `help` prints.

/// The commands with their operands, a newline between two.
pub const HELP: &str = "\
flat T
sparse T C
layer
write C V
read C
store
first
second
compare
survey N
found N
take N [MARK]
audit N
close
size
mark
free
add MINUTE VALUE
load LEVEL INDEX VALUE..
grow
settle
point I
sum A B
mean A B
busiest A B
trend J K
cells
line HEX
ring
put HEX
welcome
begin
next
end
replied
help";
